// A register of bits: a line sets four of them, and hits where all its four are set.
#![tactic(auto)]

ghost use Rattle.std.specs.Prelude.{◌≡◌, ◌%◌, ◌<◌, ◌≤◌, [], ◌∷◌};
ghost use Rattle.register.specs.Packed.{width, is_set, all_set, word_ones, ones_in, bits_of, Cleared, Sets};

use signature::Signature;

// The bits stand sixty-four to a word; a register has at least one word, and no more bits than there are hashes.
#[derive(Clone, Copy)]
pub struct Register<const WORDS: usize> {
    words: [u64; WORDS],
    ghost some: { 0 < WORDS },
    ghost few: { WORDS ≤ 1024 },
}

pub type Register1024 = Register<16>;

pub type Register128 = Register<2>;

#[tactic(auto, using(crate::proofs::OnesLaws::word_counted))]
fn ones_of(word: u64) -> usize
    ensures counts { result ≡ word_ones word }
    ensures few { result ≤ 64 }
{
    word.count_ones() as usize
}

// A public function asks nothing of its caller, so `new` stands at each width that has a name.
impl Register<16> {
    pub fn new() -> Self
        ensures { Cleared 16 result.words }
    {
        Register::<16>::cleared()
    }
}

impl Register<2> {
    pub fn new() -> Self
        ensures { Cleared 2 result.words }
    {
        Register::<2>::cleared()
    }
}

impl<const WORDS: usize> Register<WORDS> {
    fn cleared() -> Self
        requires some { 0 < WORDS }
        requires few { WORDS ≤ 1024 }
        ensures { Cleared WORDS result.words }
    {
        Register { words: [0; WORDS] }
    }

    // The bits that a line sets, one for each hash.
    pub fn bits(&self, line: u16) -> [u16; 4]
        ensures { result ≡ bits_of WORDS line }
    {
        [
            self.place(line),
            self.place(line_hash::second(line)),
            self.place(line_hash::third(line)),
            self.place(line_hash::fourth(line)),
        ]
    }

    // How many bits are set.
    pub fn ones(&self) -> usize
        ensures { result ≡ ones_in WORDS self.now.words }
    {
        self.words.iter().map(|word| ones_of(*word)).sum()
    }

    // The bit that a hash names.
    fn place(&self, hash: u16) -> u16
        ensures { result ≡ hash % width WORDS }
    {
        (usize::from(hash) % (64 * WORDS)) as u16
    }

    #[tactic(auto, using(crate::proofs::PackedLaws::one_set))]
    fn mark(&mut self, hash: u16)
        ensures { Sets WORDS self.old.words (hash % width WORDS ∷ []) self.new.words }
    {
        let bit = self.place(hash);
        self.words[usize::from(bit / 64)] |= 1 << (bit % 64);
    }

    fn marked(&self, hash: u16) -> bool
        ensures { result ≡ is_set self.now.words (hash % width WORDS) }
    {
        let bit = self.place(hash);
        (self.words[usize::from(bit / 64)] >> (bit % 64)) & 1 == 1
    }
}

impl<const WORDS: usize> Signature for Register<WORDS> {
    ghost has = { λ s line. all_set s.words (bits_of WORDS line) };

    ghost resets = { λ s t. Cleared WORDS t.words };

    ghost inserts = { λ s line t. Sets WORDS s.words (bits_of WORDS line) t.words };

    fn reset(&mut self) {
        *self = Register::cleared();
    }

    // One after another: a loop over `bits` takes more instructions.
    fn insert(&mut self, line: u16) {
        self.mark(line);
        self.mark(line_hash::second(line));
        self.mark(line_hash::third(line));
        self.mark(line_hash::fourth(line));
    }

    // The cheap hashes are asked first: most lines miss at one of them.
    fn hit(&self, line: u16) -> bool {
        self.marked(line)
            && self.marked(line_hash::second(line))
            && self.marked(line_hash::third(line))
            && self.marked(line_hash::fourth(line))
    }
}
