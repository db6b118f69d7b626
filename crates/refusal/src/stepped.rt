// What an accepted step did.

#[derive(Clone, Copy, PartialEq, Eq, Debug)]
pub enum Stepped {
    Fetched,
    Repeated(u32),
    Lost,
    Passed,
    Copied,
    Ended,
}
