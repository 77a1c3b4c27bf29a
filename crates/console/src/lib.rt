// Standard input and standard output for the programs: a call that fails is told from the end of the input, and a report is collected on
// a page before any of it is written.
#![tactic(auto)]

pub mod input;
pub mod output;
#[cfg(test)]
mod tests;
