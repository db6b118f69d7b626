// A thread's record as the row holds it: any four numbers, the phase's too, as the rules want them.

#[derive(Clone, Copy, PartialEq, Eq, Default)]
pub struct PlainRecord {
    pub phase: u32,
    pub count: u32,
    pub cursor: u32,
    pub repeats: u32,
}
