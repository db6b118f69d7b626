// Fills a signature of any kind, and writes the listing.
#![tactic(auto)]

mod filling;
pub mod listing;
