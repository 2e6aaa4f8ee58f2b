//! A tree while it is drawn.

ghost use Rattle.std.specs.Prelude.{◌≡◌, ◌<◌, ◌++◌, ◌∷◌, [], suc, true, false, Some, IfErr, OnErr};
ghost use Rattle.std.specs.Prelude.{All, OnOk, length};
ghost use Rattle.qv_words.specs.Sort.{IsLawful};
ghost use Rattle.qv_words.specs.Tree.{Variable};
ghost use Rattle.qv_words.specs.Replacement.{replaced};
ghost use Rattle.qv_store.specs.Nodes.{tree_at};
ghost use Rattle.qv_store.specs.Stores.{Grows};
ghost use Rattle.qv_store.specs.Replacing.{AreTermsOf, IsReplaceable, put_by_level};
ghost use Rattle.qv_entries.specs.Rows.{entries_in, IsRowIn};
ghost use Rattle.qv_meter.specs.Units.{LineUnit};
ghost use Rattle.qv_meter.specs.Records.{after_instance};
ghost use Rattle.qv_meter.specs.Charging.{MayChargeInstance};
ghost use Rattle.qv_expand.specs.Charges.{IsFault};
ghost use Rattle.qv_expand.specs.Growth.{IsBackAt, IsLonger};

use crate::tree::{Tree, TreeLine};
use qv_cnf::Spent;
use qv_entries::Entries;
use qv_meter::{InstanceUnit, Meter, PlayFault, SpentKind};
use qv_store::{Id, NoMemory, Node, Store};
use qv_words::Sort;
use std::alloc::Global;

/// The lines so far, and the path to the one below which the next line comes: of each place on it
/// what stands for it, and the number of the entry under which it stands.
#[derive(Drop)]
pub(crate) struct Growing {
    pub lines: Vec<TreeLine>,
    pub parent: u64,
    pub path: Vec<Option<Id>>,
    pub under: Vec<u64>,
}

impl Growing {
    // No lines.
    pub(crate) fn new(alloc: Global) -> Growing
        ensures lines { result.lines.items ≡ [] }
        ensures parent { result.parent ≡ 0 }
        ensures path { result.path.items ≡ [] }
        ensures under { result.under.items ≡ [] }
    {
        Growing {
            lines: Vec::new(alloc),
            parent: 0,
            path: Vec::new(alloc),
            under: Vec::new(alloc),
        }
    }

    // Goes back to a line with so many places on the path down to it.
    pub(crate) fn back_to(&mut self, parent: u64, depth: usize)
        ensures { IsBackAt self.old self.new parent depth }
    {
        self.parent = parent;
        self.path.truncate(depth);
        self.under.truncate(depth);
    }

    // One more line below the last one: a variable of this sort. It is charged in the end.
    pub(crate) fn eigen(
        &mut self,
        store: &mut Store,
        entries: &Entries,
        meter: &mut Meter,
        number: u64,
        sort: Sort,
    ) -> Result<(), PlayFault>
        requires unit { MayChargeInstance meter.old
            (LineUnit (entries_in store.old entries.now) (self.old.under.items ++ number ∷ [])) }
        requires rows { All (IsRowIn store.old) entries.now }
        requires lawful { IsLawful sort }
        ensures line { OnOk result (IsLonger self.old self.new number true store.new
            (Variable (suc (length self.old.lines.items)) sort)) }
        ensures ok { OnOk result (meter.new ≡ after_instance meter.old) }
        ensures err { OnErr result (meter.new ≡ meter.old) }
        ensures fault { IfErr result (IsFault meter.new) }
        ensures grows { Grows store.old store.new }
    {
        self.under.push(number)?;
        self.push_line(None)?;
        let variable = store.put(Node::Var {
            level: self.parent,
            sort,
        })?;
        self.path.push(Some(variable))?;
        charge(&self.under, store, entries, meter)
    }

    // One more line below the last one: a term with the path put in. It is charged in the end.
    pub(crate) fn instance(
        &mut self,
        store: &mut Store,
        entries: &Entries,
        meter: &mut Meter,
        number: u64,
        term: Id,
    ) -> Result<(), PlayFault>
        requires unit { MayChargeInstance meter.old
            (LineUnit (entries_in store.old entries.now) (self.old.under.items ++ number ∷ [])) }
        requires rows { All (IsRowIn store.old) entries.now }
        requires term { term < length store.old }
        requires there { AreTermsOf store.old self.old.path.items }
        requires ready { IsReplaceable (put_by_level store.old self.old.path.items)
            (tree_at store.old term) }
        ensures line { OnOk result (IsLonger self.old self.new number false store.new
            (replaced (put_by_level store.old self.old.path.items) (tree_at store.old term))) }
        ensures ok { OnOk result (meter.new ≡ after_instance meter.old) }
        ensures err { OnErr result (meter.new ≡ meter.old) }
        ensures fault { IfErr result (IsFault meter.new) }
        ensures grows { Grows store.old store.new }
    {
        self.under.push(number)?;
        let put = store.put_in(term, &self.path)?;
        self.push_line(Some(put))?;
        self.path.push(Some(put))?;
        charge(&self.under, store, entries, meter)
    }

    // One more line below the last one; the next comes below it.
    fn push_line(&mut self, instance: Option<Id>) -> Result<(), NoMemory>
        ensures lines { OnOk result (self.new.lines.items ≡ self.old.lines.items
            ++ record { parent = self.old.parent; instance = instance } ∷ []) }
        ensures parent { OnOk result (self.new.parent ≡ length self.new.lines.items) }
        ensures path { self.new.path.items ≡ self.old.path.items }
        ensures under { self.new.under.items ≡ self.old.under.items }
    {
        self.lines.push(TreeLine {
            parent: self.parent,
            instance,
        })?;
        self.parent = self.lines.len() as u64;
        Ok(())
    }
}

// Charges the next line, by its path.
fn charge(
    path: &[u64],
    store: &Store,
    entries: &Entries,
    meter: &mut Meter,
) -> Result<(), PlayFault>
    requires { MayChargeInstance meter.old (LineUnit (entries_in store.now entries.now) path.now) }
    ensures ok { OnOk result (meter.new ≡ after_instance meter.old) }
    ensures err { OnErr result (meter.new ≡ meter.old) }
    ensures fault { IfErr result (IsFault meter.new) }
{
    let unit = InstanceUnit::TreeLine { entries, path };
    match meter.instance(store, &unit) {
        Ok(()) => Ok(()),
        Err(Spent) => Err(PlayFault::Spent(SpentKind::Instances)),
    }
}
