// A signature over groups of four lines: it is told, and asked for, the group's number.
#![tactic(auto)]

ghost use Rattle.std.specs.Prelude.{◌/◌};

use signature::Signature;

#[derive(Clone, Copy)]
pub struct Coarse<A> {
    pub below: A,
}

impl<A: Signature> Signature for Coarse<A> {
    ghost has = { λ s line. A.Signature.has s.below (line / 4) };

    ghost resets = { λ s t. A.Signature.resets s.below t.below };

    ghost inserts = { λ s line t. A.Signature.inserts s.below (line / 4) t.below };

    fn reset(&mut self) {
        self.below.reset();
    }

    fn insert(&mut self, line: u16) {
        self.below.insert(line / 4);
    }

    fn hit(&self, line: u16) -> bool {
        self.below.hit(line / 4)
    }
}
