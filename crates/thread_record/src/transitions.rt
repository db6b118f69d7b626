// How a record changes; no change leads beyond its limits.
ghost use Rattle.std.specs.Prelude.{◌+◌, min, ◌≤◌};
ghost use Rattle.thread_record.specs.declared.phase.Phase.TheVariants.{Running, Validating, Copying};
ghost use Rattle.thread_record.specs.Limits.{count_limit, cursor_limit};
ghost use Rattle.thread_record.specs.Records.{Is};

use crate::phase::Phase;
use crate::reading::furthest_cursor;
use crate::record::Record;

impl Record {
    // At the first entry of so many, with no repeats.
    fn at_start(phase: Phase, count: u32) -> Record
        requires { count ≤ count_limit phase }
        ensures { Is phase count 0 0 result }
    {
        Record {
            phase,
            count,
            cursor: 0,
            repeats: 0,
        }
    }

    // Nothing is counted.
    pub fn cleared(phase: Phase) -> Record
        ensures { Is phase 0 0 0 result }
    {
        Record::at_start(phase, 0)
    }

    // Running, with so many entries.
    pub fn running(count: u32) -> Record
        ensures { Is Running (min count 32) 0 0 result }
    {
        Record::at_start(Phase::Running, count.min(32))
    }

    pub fn committed(self) -> Record
        ensures { Is Validating self.count 0 0 result }
    {
        Record::at_start(Phase::Validating, self.count)
    }

    pub fn passed(self) -> Record
        ensures { Is Copying self.count 0 0 result }
    {
        Record::at_start(Phase::Copying, self.count)
    }

    // One entry on, in the same phase. Field by field: a struct with ghost fields takes no `..self`.
    pub fn advanced(self) -> Record
        ensures { Is self.phase self.count (min (self.cursor + 1) (cursor_limit self.phase self.count)) self.repeats result }
    {
        Record {
            phase: self.phase,
            count: self.count,
            cursor: (self.cursor + 1).min(furthest_cursor(self.phase, self.count)),
            repeats: self.repeats,
        }
    }

    // Back at the first entry, for one more attempt.
    pub fn rewound(self) -> Record
        ensures { Is Validating self.count 0 (min (self.repeats + 1) 4) result }
    {
        Record {
            phase: Phase::Validating,
            count: self.count,
            cursor: 0,
            repeats: (self.repeats + 1).min(4),
        }
    }
}
