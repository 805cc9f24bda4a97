// The crash theorem: what is left of a log that was cut. It is all specs and proofs over the calls' definitions; no code
// stands here.
#![tactic(auto)]
