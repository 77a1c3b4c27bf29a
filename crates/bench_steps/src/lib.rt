// The bench of document 01, which joins both ends: one step for each record. It is built on the promises of the kinds' crates and on
// nothing else of them.
#![tactic(auto)]

pub mod step;
