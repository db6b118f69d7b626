// What a request does to another thread.

#[derive(Clone, Copy)]
pub enum Effect {
    Stays,
    Repeats,
    Aborts,
}
