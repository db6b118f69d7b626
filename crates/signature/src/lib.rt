// What a signature means.
#![tactic(auto)]

ghost use Rattle.std.specs.Prelude.{◌≡◌, ℕ, Bool};
ghost use Rattle.signature.specs.Meaning.{Emptied, Inserted};

pub mod members;

// A set of lines that may hold more than it was told.
pub trait Signature {
    // the line is in the set
    ghost has: { Self → ℕ → Bool };

    // the kind's own account of a reset, which names all that it does
    ghost resets: { Self → Self → Type 0 };

    // the kind's own account of one insert, which names all that it does
    ghost inserts: { Self → ℕ → Self → Type 0 };

    fn reset(&mut self)
        ensures { Emptied has resets self.old self.new };

    fn insert(&mut self, line: u16)
        ensures { Inserted has inserts self.old line self.new };

    fn hit(&self, line: u16) -> bool
        ensures { result ≡ has self.now line };
}
