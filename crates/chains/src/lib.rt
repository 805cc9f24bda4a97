// The chains of the transactions' entries, in the lists' spare bytes while replay runs.
#![tactic(auto)]

pub mod chain;
pub mod links;
