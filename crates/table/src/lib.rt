// The table of settings: rows of a key and a value, sorted by key bytes.
#![tactic(auto)]

pub mod change;
pub mod find;
pub mod row;
