//! What a closure on gates is sought with: functions of few variables, and steps with their hints.
//! Nothing is promised of a step: who takes one gives it to a checker first.
#![tactic(auto)]

mod cubes;
mod drafts;
mod gates;
mod literals;
mod local;
mod tables;

pub use cubes::{Cube, cover};
pub use drafts::{Draft, Face};
pub use gates::{Gate, guesses};
pub use literals::{literal, signed};
pub use tables::{Form, Leaves, Shape};
