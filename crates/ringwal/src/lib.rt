// The two thin forms over the core: a walker that holds the segment it walks, and an append that changes its writer in place.
#![tactic(auto)]

pub mod in_place;
pub mod walker;
