// A thread's record: plain numbers in the row, and what is read of them.
#![tactic(auto)]

mod phase;
mod plain;
mod reading;
mod record;
mod transitions;

pub use crate::phase::Phase;
pub use crate::plain::PlainRecord;
pub use crate::record::Record;
