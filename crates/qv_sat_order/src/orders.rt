//! Sets of variables in the order of their activity.

ghost use Rattle.std.specs.Prelude.{◌≡◌, ◌≤◌, ◌/◌, ◌^◌, length, map, true, false, IfSome, IfNone};
ghost use Rattle.std.specs.Prelude.{OnOk, OnErr};

use super::tournament::{first, mend, play, raise, top};
use std::alloc::{AllocError, Global};
use std::marker::Model;

// At this increment all activities are divided.
const LIMIT: u64 = 1 << 58;

// By how much they are divided then.
const SCALE: u64 = 1 << 38;

/// Some of the variables from 1 on, of which the first is taken: the most active, and among equals
/// that of the greatest number. It is a tournament: a change is walked up from the variable's leaf only
/// as far as winners change, and takes no memory.
#[derive(Debug, Drop)]
pub struct Order {
    // The winners at the places of a tree, from 1 on. 0 is none.
    nodes: Vec<u32>,
    // Whether each variable is held.
    held: Vec<bool>,
    // The activity of each variable.
    activity: Vec<u64>,
    // By how much a bump makes a variable more active.
    increment: u64,
}

impl Model for Order {
    ghost use Rattle.qv_sat_order.specs.Ranking.{Ranking};
    ghost use Rattle.qv_sat_order.specs.Tournament.{IsTournament};

    ghost Value = { Ranking };

    ghost view = { λ a. record {
      held = a.held.items;
      activity = a.activity.items;
      increment = a.increment;
    } };

    ghost invariant = { λ a. IsTournament a.nodes.items a.held.items a.activity.items };
}

impl Order {
    ghost use Rattle.qv_sat_order.specs.Ranking.{no_ranking, bumped, decayed, with_held, with_room};
    ghost use Rattle.qv_sat_order.specs.Ranking.{HoldsNone, IsFirst};

    /// Of no variables.
    pub fn new(alloc: Global) -> Order
        ensures { result ≡ no_ranking }
    {
        Order {
            nodes: Vec::new(alloc),
            held: Vec::new(alloc),
            activity: Vec::new(alloc),
            increment: 1 << 20,
        }
    }

    /// Makes room for the variables from 1 to this one, with all the memory that later calls take.
    /// Those that are new are held.
    pub fn room(&mut self, variables: u32) -> Result<(), AllocError>
        ensures ok { OnOk result (self.new ≡ with_room self.old variables) }
        ensures err { OnErr result (self.new ≡ self.old) }
    {
        let width = variables as usize;
        let old = self.held.len();
        if width <= old {
            return Ok(());
        }
        self.nodes.reserve(width - old)?;
        self.held.reserve(width - old)?;
        self.activity.reserve(width - old)?;
        self.nodes.resize(width, 0)?;
        self.held.resize(width, true)?;
        self.activity.resize(width, 0)?;
        play(&mut self.nodes, &self.held, &self.activity);
        Ok(())
    }

    /// How many variables there are.
    pub fn variables(&self) -> u32
        ensures { result ≡ length self.now.held }
    {
        self.held.len() as u32
    }

    /// Holds a variable.
    pub fn insert(&mut self, variable: u32)
        requires from { 1 ≤ variable }
        requires to { variable ≤ length self.old.held }
        ensures { self.new ≡ with_held self.old variable true }
    {
        let held = self.held[variable as usize - 1];
        if held {
            return;
        }
        self.change(variable, true);
    }

    /// Takes the first variable that is held.
    pub fn pop(&mut self) -> Option<u32>
        ensures first { IfSome result (IsFirst self.old) }
        ensures taken { IfSome result (λ v. self.new ≡ with_held self.old v false) }
        ensures none { IfNone result (HoldsNone self.old) }
        ensures same { IfNone result (self.new ≡ self.old) }
    {
        let variable = first(&self.nodes, &self.held);
        if variable == 0 {
            return None;
        }
        self.change(variable, false);
        Some(variable)
    }

    /// Makes a variable more active by the increment.
    pub fn bump(&mut self, variable: u32)
        requires from { 1 ≤ variable }
        requires to { variable ≤ length self.old.held }
        ensures { self.new ≡ bumped self.old variable }
    {
        let place = variable as usize - 1;
        self.activity[place] = self.activity[place].saturating_add(self.increment);
        if self.held[place] {
            let top = top(&self.nodes, self.held.len() + place, variable);
            raise(&mut self.nodes, &self.held, &self.activity, top, variable);
        }
    }

    /// Lets what was counted so far weigh less: the increment grows by a nineteenth. Where it has
    /// come to 2^58, it and all activities are divided by 2^38 instead.
    pub fn decay(&mut self)
        ensures { self.new ≡ decayed self.old }
    {
        if self.increment < LIMIT {
            self.increment += self.increment / 19;
            return;
        }
        self.increment /= SCALE;
        divide(&mut self.activity);
        play(&mut self.nodes, &self.held, &self.activity);
    }

    // Whether a variable is held from now on.
    fn change(&mut self, variable: u32, held: bool)
        requires from { 1 ≤ variable }
        requires to { variable ≤ length self.old.held }
        ensures { self.new ≡ with_held self.old variable held }
    {
        let place = variable as usize - 1;
        self.held[place] = held;
        let leaf = self.held.len() + place;
        mend(&mut self.nodes, &self.held, &self.activity, leaf);
    }
}

// Divides each activity, rounded down.
fn divide(activity: &mut [u64])
    ensures { activity.new ≡ map (λ a. a / 2 ^ 38) activity.old }
{
    for one in activity.iter_mut() {
        *one /= SCALE;
    }
}
