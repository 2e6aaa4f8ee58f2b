//! All lines of a source.

ghost use Rattle.std.specs.Prelude.{◌≡◌, ◌≤◌, [], IsErrOf};
ghost use Rattle.qv_io.specs.Count.{Rose};
ghost use Rattle.qv_io.specs.Source.{TellsAsBefore};
ghost use Rattle.qv_cert.specs.Lines.{lines_left, GivesLine, ReadsLine, TookLine};

use crate::answers::Stop;
use crate::input::Input;
use qv_io::Source;
use std::alloc::Global;
use std::marker::Model;

/// The lines of a source, one after another; the last one may lack its LF.
#[derive(Drop)]
pub struct Lines {
    input: Input,
}

impl Model for Lines {
    ghost use Rattle.qv_cert.specs.Lines.{LinesState};

    ghost Value = { LinesState };

    ghost view = { λ l. record {
      line = l.input.line.items;
      rest = l.input.buffer;
      taken = l.input.taken;
    } };
}

impl Lines {
    pub fn new(alloc: Global) -> Lines
        ensures rest { result.rest ≡ [] }
        ensures taken { result.taken ≡ 0 }
    {
        Lines {
            input: Input::new(alloc),
        }
    }

    /// The line that was taken last.
    pub fn line(&self) -> &[u8]
        ensures { result.now ≡ self.now.line }
    {
        self.input.line()
    }

    /// Goes to the next line, and says whether there is one. A further piece of the source is taken
    /// only where no whole line is in what was taken.
    pub fn next_line<S: Source>(&mut self, source: &mut S) -> Result<bool, Stop>
        // Where the source tells its bytes, this is what comes next in them.
        ensures gives { GivesLine (lines_left self.old.rest (S.left source.old)) result
            self.new.line (lines_left self.new.rest (S.left source.new)) }
        // The source is called only where no whole line is in what was taken.
        ensures calls { ReadsLine S.read_gives self.old source.old result self.new source.new }
        // Told or not: which bytes were taken, and where the rest begins.
        ensures took { TookLine S.read_gives S.left self.old source.old result self.new source.new }
        ensures failed { IsErrOf result Stop.ReadFault →
            Rose (S.faults source.old) (S.faults source.new) }
        ensures telling { TellsAsBefore (S.left source.old) (S.left source.new) }
        ensures count { S.faults source.old ≤ S.faults source.new }
    {
        self.input.next_line(source)
    }
}
