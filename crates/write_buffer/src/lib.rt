// The counted entries of a thread: its buffered words.
#![tactic(auto)]

pub mod area;
mod entry;
pub mod scan;

pub use crate::entry::Entry;
