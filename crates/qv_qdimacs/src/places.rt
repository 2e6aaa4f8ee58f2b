//! Where variables stand: at indices of constants, or at levels.

ghost use Rattle.std.specs.Prelude.{◌≡◌, ◌++◌, IfOk, OnOk};
ghost use Rattle.qv_store.specs.Stores.{AreShared, Grows, StandsAt};
ghost use Rattle.qv_qdimacs.specs.Outer.{variables_of};
ghost use Rattle.qv_qdimacs.specs.Leaves.{ArePlaces, leaf_in};

use crate::files::Quantified;
use qv_store::{Id, NoMemory, Node, Store};
use qv_words::{Sort, Word};
use std::alloc::Global;
use std::collections::HashMap;

/// The indices of the outer variables, and the levels of the others.
#[derive(Drop)]
pub(crate) struct Places {
    pub(crate) outer: HashMap<u32, u64>,
    pub(crate) bound: HashMap<u32, u64>,
}

impl Places {
    /// The places of outer variables, and of those that a prefix quantifies.
    pub(crate) fn of(
        alloc: Global,
        outer: &[u32],
        prefix: &[Quantified],
    ) -> Result<Places, NoMemory>
        ensures outer { IfOk result (λ places. ArePlaces outer.now places.outer) }
        ensures bound { IfOk result (λ places.
            ArePlaces (variables_of prefix.now) places.bound) }
    {
        let mut variables = Vec::with_capacity(alloc, prefix.len())?;
        push_variables(&mut variables, prefix)?;
        Ok(Places {
            outer: places_of(alloc, outer)?,
            bound: places_of(alloc, &variables)?,
        })
    }

    /// What stands for a variable.
    pub(crate) fn put(&self, store: &mut Store, variable: u32) -> Result<Id, NoMemory>
        ensures id { IfOk result (λ id. StandsAt store.new id (leaf_in self.now variable)) }
        ensures grows { Grows store.old store.new }
        ensures shared { AreShared store.new }
    {
        let sort = Sort::Bool;
        if let Some(level) = self.bound.get(&variable).copied() {
            return store.put(Node::Var { level, sort });
        }
        match self.outer.get(&variable).copied() {
            Some(index) => store.put(Node::Const { index, sort }),
            None => store.put(Node::Lit {
                word: Word::truth(false),
            }),
        }
    }
}

/// The place of each variable of a list: its first one.
pub(crate) fn places_of(alloc: Global, variables: &[u32]) -> Result<HashMap<u32, u64>, NoMemory>
    ensures { IfOk result (λ places. ArePlaces variables.now places) }
{
    let mut places = HashMap::new(alloc);
    'variables: for (place, variable) in variables.iter().enumerate() {
        if !places.contains_key(variable) {
            places.insert(*variable, place as u64)?;
        }
    }
    Ok(places)
}

/// Adds the variables of a prefix to a list.
pub(crate) fn push_variables(
    variables: &mut Vec<u32>,
    prefix: &[Quantified],
) -> Result<(), NoMemory>
    ensures { OnOk result (variables.new.items
        ≡ variables.old.items ++ variables_of prefix.now) }
{
    'prefix: for quantified in prefix {
        variables.push(quantified.variable)?;
    }
    Ok(())
}
