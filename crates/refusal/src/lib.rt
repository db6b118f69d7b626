// Refusals and the other answers of the calls, and the rows of the refusal table on a thread's phase.
#![tactic(auto)]

mod nack;
mod refusal;
pub mod rows;
mod stepped;

pub use crate::nack::Nack;
pub use crate::refusal::Refusal;
pub use crate::stepped::Stepped;
