//! Lines of certificates, and how a section of them is judged.
#![tactic(auto)]

mod answers;
mod buffer;
mod fault;
mod input;
mod keyword;
mod kind;
pub mod laws;
mod line;
mod lines;
mod numbers;
mod reader;
mod reading;

pub use answers::{CertNext, Stop};
pub use fault::{CertLineFault, NoMemory};
pub use kind::RefusalKind;
pub use line::{Line, Section};
pub use lines::Lines;
pub use reader::CertReader;
pub use reading::read_cert_line;
