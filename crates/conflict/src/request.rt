// A request for a line.
use crate::access::Access;

// It comes from a thread, or from nobody.
#[derive(Clone, Copy)]
pub struct Request {
    pub access: Access,
    pub from: Option<u32>,
    pub line: u16,
}
