// Conflicts: what a request for a line does to one other thread.
#![tactic(auto)]

mod access;
mod effect;
pub mod line;
pub mod meeting;
mod request;

pub use crate::access::Access;
pub use crate::effect::Effect;
pub use crate::request::Request;
