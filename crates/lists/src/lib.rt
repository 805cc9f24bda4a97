// The two lists that recovery fills: every good entry in reading order, and the transactions by ascending number.
#![tactic(auto)]

pub mod admit;
pub mod entries;
pub mod tally;
pub mod transactions;
