// Why a call was refused.
ghost use Rattle.std.specs.Prelude.{◌≡◌};
ghost use Rattle.refusal.specs.Cases.{refusal_case};

use thread_record::Phase;

#[derive(Clone, Copy, PartialEq, Eq, Debug)]
pub enum Refusal {
    WrongParts,
    NoThread(u32),
    BadEntry(u32),
    NoAddress(u32),
    WrongPhase(Phase),
    Aborted(u32),
    BufferFull(u32),
    Nacked(u32),
}

impl Refusal {
    // The number that users know it by: a variant with a value in it carries none.
    pub fn number(self) -> u32
        ensures { result ≡ (refusal_case self).number }
    {
        match self {
            Refusal::WrongParts => 1,
            Refusal::NoThread(_) => 2,
            Refusal::BadEntry(_) => 3,
            Refusal::NoAddress(_) => 4,
            Refusal::WrongPhase(_) => 5,
            Refusal::Aborted(_) => 6,
            Refusal::BufferFull(_) => 7,
            Refusal::Nacked(_) => 8,
        }
    }
}
