// A nacked request: the thread that nacked it.
ghost use Rattle.std.specs.Prelude.{◌≡◌};
ghost use Rattle.refusal.specs.declared.refusal.Refusal.TheVariants.{Nacked};

use crate::refusal::Refusal;

#[derive(Clone, Copy, PartialEq, Eq, Debug)]
pub struct Nack {
    pub by: u32,
}

impl From<Nack> for Refusal {
    ghost from_gives = { λ nack refusal. refusal ≡ Nacked nack.by };

    fn from(nack: Nack) -> Refusal {
        Refusal::Nacked(nack.by)
    }
}
