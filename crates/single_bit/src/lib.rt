// A signature of one bit, as poor as the meaning allows: after the first insert it hits on every line.
#![tactic(auto)]

ghost use Rattle.std.specs.Prelude.{◌≡◌, true, false};

use signature::Signature;

#[derive(Clone, Copy)]
pub struct SingleBit {
    told: bool,
}

impl SingleBit {
    pub fn new() -> Self
        ensures { result.told ≡ false }
    {
        SingleBit { told: false }
    }
}

impl Signature for SingleBit {
    ghost has = { λ s line. s.told };

    ghost resets = { λ s t. t.told ≡ false };

    ghost inserts = { λ s line t. t.told ≡ true };

    fn reset(&mut self) {
        self.told = false;
    }

    fn insert(&mut self, _line: u16) {
        self.told = true;
    }

    fn hit(&self, _line: u16) -> bool {
        self.told
    }
}
