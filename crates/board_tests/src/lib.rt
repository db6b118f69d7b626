// Examples of what the board answers, run as tests.
#![tactic(auto)]

#[cfg(test)]
mod opening;
#[cfg(test)]
mod transactions;
