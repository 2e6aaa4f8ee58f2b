//! The lines of an entry's block.

ghost use Rattle.std.specs.Prelude.{◌<◌, IfErr, OnOk, length};
ghost use Rattle.qv_words.specs.Problem.{Existential, Universal};
ghost use Rattle.qv_store.specs.Stores.{Grows};
ghost use Rattle.qv_expand.specs.Charges.{IsFault, OnlyCounts};
ghost use Rattle.qv_expand.specs.Growth.{HasDrawn, IsExpanding, MayDraw, StandsBefore};

use crate::growing::Growing;
use qv_entries::Entries;
use qv_meter::{Meter, PlayFault};
use qv_skolem::run_length;
use qv_store::{Problem, Quant, Store};

impl Growing {
    // Draws the lines of an entry's block below the last line.
    pub(crate) fn block(
        &mut self,
        store: &mut Store,
        problem: &Problem,
        entries: &Entries,
        meter: &mut Meter,
        number: u64,
    ) -> Result<(), PlayFault>
        requires number { number < length entries.now }
        requires expanding { IsExpanding store.old problem.now entries.now meter.old self.old }
        requires may { MayDraw store.old problem.now entries.now self.old number }
        ensures expanding { OnOk result
            (IsExpanding store.new problem.now entries.now meter.new self.new) }
        ensures drawn { OnOk result
            (HasDrawn store.old store.new problem.now entries.now self.old self.new number) }
        ensures only { OnlyCounts meter.old meter.new }
        ensures fault { IfErr result (IsFault meter.new) }
        ensures grows { Grows store.old store.new }
    {
        match problem.prefix[self.path.len()].quant {
            Quant::Exists => self.eigens(store, problem, entries, meter, number),
            Quant::Forall => self.instances(store, problem, entries, meter, number),
        }
    }

    // The same of an existential block.
    fn eigens(
        &mut self,
        store: &mut Store,
        problem: &Problem,
        entries: &Entries,
        meter: &mut Meter,
        number: u64,
    ) -> Result<(), PlayFault>
        requires number { number < length entries.now }
        requires expanding { IsExpanding store.old problem.now entries.now meter.old self.old }
        requires may { MayDraw store.old problem.now entries.now self.old number }
        requires owner { StandsBefore problem.now Existential self.old }
        ensures expanding { OnOk result
            (IsExpanding store.new problem.now entries.now meter.new self.new) }
        ensures drawn { OnOk result
            (HasDrawn store.old store.new problem.now entries.now self.old self.new number) }
        ensures only { OnlyCounts meter.old meter.new }
        ensures fault { IfErr result (IsFault meter.new) }
        ensures grows { Grows store.old store.new }
    {
        let behind = &problem.prefix[self.path.len()..];
        let block = &behind[..run_length(behind, Quant::Exists)];
        'places: for place in block {
            self.eigen(store, entries, meter, number, place.sort)?;
        }
        Ok(())
    }

    // The same of a universal block.
    fn instances(
        &mut self,
        store: &mut Store,
        _problem: &Problem,
        entries: &Entries,
        meter: &mut Meter,
        number: u64,
    ) -> Result<(), PlayFault>
        requires number { number < length entries.now }
        requires expanding { IsExpanding store.old _problem.now entries.now meter.old self.old }
        requires may { MayDraw store.old _problem.now entries.now self.old number }
        requires owner { StandsBefore _problem.now Universal self.old }
        ensures expanding { OnOk result
            (IsExpanding store.new _problem.now entries.now meter.new self.new) }
        ensures drawn { OnOk result
            (HasDrawn store.old store.new _problem.now entries.now self.old self.new number) }
        ensures only { OnlyCounts meter.old meter.new }
        ensures fault { IfErr result (IsFault meter.new) }
        ensures grows { Grows store.old store.new }
    {
        'terms: for term in &entries.entry(number).terms {
            self.instance(store, entries, meter, number, *term)?;
        }
        Ok(())
    }
}
