// The word board: transactions over words, with signatures to notice conflicts.
#![tactic(auto)]

mod changes;
mod checks;
mod opening;
mod parts;
mod plain_access;
mod request;
mod rows;
mod step;
mod threads;
mod transaction;

pub use crate::parts::Board;
