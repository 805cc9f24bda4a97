// House records: of a fixed size, dense from the front of a lent buffer, sorted by a key.
#![tactic(auto)]

pub mod finding;
pub mod moves;
pub mod record;
