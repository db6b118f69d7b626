// A buffered word.

#[derive(Clone, Copy, PartialEq, Eq, Default)]
pub struct Entry {
    pub address: u32,
    pub word: u32,
}
