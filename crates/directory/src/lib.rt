// What the controller lends, the directory's records, and the test that every call makes before it changes anything:
// refusals 1 and 2 of document 01.
#![tactic(auto)]

pub mod lent;
pub mod record;
pub mod rule;
