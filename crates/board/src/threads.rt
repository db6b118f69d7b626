// A thread as a whole: cleared, or sent back to its first entry.
ghost use Rattle.std.specs.Prelude.{◌≡◌};
ghost use Rattle.board.specs.Admissions.{Has, Repeatable};
ghost use Rattle.board.specs.Changes.{Turns};
ghost use Rattle.board.specs.Requests.{Cleared, rewound};

use crate::parts::Board;
use crate::rows::reset_at;
use signature::Signature;
use thread_record::{Phase, Record};

impl<'w, 'r, 'e, 's, 'x, R: Signature, W: Signature> Board<'w, 'r, 'e, 's, 'x, R, W> {
    // Sets a phase with nothing counted, and resets both signatures.
    pub(crate) fn clear(&mut self, t: usize, phase: Phase)
        requires { Has t self.old }
        ensures { Turns t (Cleared R.Signature W.Signature phase) self.old self.new }
    {
        self.store_record(t, Record::cleared(phase));
        reset_at(self.reads, t);
        reset_at(self.writes, t);
    }

    // Sends a validating thread back to its first entry.
    pub(crate) fn rewind(&mut self, t: usize)
        requires has { Has t self.old }
        requires repeatable { Repeatable t self.old }
        ensures { Turns t (λ x y. y ≡ rewound x) self.old self.new }
    {
        let before = Record::from(self.records[t]);
        self.store_record(t, before.rewound());
    }
}
