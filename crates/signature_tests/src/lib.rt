// Examples that every kind must give, run as tests.
#![tactic(auto)]

#[cfg(test)]
mod kinds;
#[cfg(test)]
mod texts;
