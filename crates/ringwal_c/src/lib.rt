// The public calls for C. Numbers and structs of numbers go by value, bytes as a pointer and a length. A refusal is its
// number, 0 where there is none. Each call is that of its name in the crates below: nothing is decided here.
#![tactic(auto)]

pub mod checkpoints;
pub mod checksum;
pub mod decoding;
pub mod house_records;
pub mod in_place;
pub mod naming;
pub mod recovering;
pub mod writing;
