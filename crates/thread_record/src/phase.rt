// Where a thread stands in its transaction.
ghost use Rattle.std.specs.Prelude.{◌≡◌};
ghost use Rattle.thread_record.specs.Limits.{phase_of};
ghost use Rattle.thread_record.specs.Phases.{phase_number};

#[derive(Clone, Copy, PartialEq, Eq, Debug)]
pub enum Phase {
    Idle = 0,
    Running = 1,
    Validating = 2,
    Copying = 3,
    Aborted = 4,
}

impl Phase {
    pub fn number(self) -> u32
        ensures { result ≡ phase_number self }
    {
        self as u32
    }
}

impl From<u32> for Phase {
    ghost from_gives = { λ number phase. phase ≡ phase_of number };

    fn from(number: u32) -> Phase {
        match number {
            0 => Phase::Idle,
            1 => Phase::Running,
            2 => Phase::Validating,
            3 => Phase::Copying,
            _ => Phase::Aborted,
        }
    }
}
