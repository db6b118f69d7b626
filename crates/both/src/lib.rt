// Two signatures as one: a line hits where both hit.
#![tactic(auto)]

ghost use Rattle.std.specs.Prelude.{◌&&◌};

use signature::Signature;

#[derive(Clone, Copy)]
pub struct Both<A, B> {
    pub first: A,
    pub second: B,
}

impl<A: Signature, B: Signature> Signature for Both<A, B> {
    ghost has = { λ s line. A.Signature.has s.first line && B.Signature.has s.second line };

    ghost resets = { λ s t. A.Signature.resets s.first t.first × B.Signature.resets s.second t.second };

    ghost inserts = { λ s line t. A.Signature.inserts s.first line t.first × B.Signature.inserts s.second line t.second };

    fn reset(&mut self) {
        self.first.reset();
        self.second.reset();
    }

    fn insert(&mut self, line: u16) {
        self.first.insert(line);
        self.second.insert(line);
    }

    fn hit(&self, line: u16) -> bool {
        self.first.hit(line) && self.second.hit(line)
    }
}
