// How values and lent arrays hold the bench's state: definitions (specs/) and laws (proofs/) alone. No function stands here; the step promises
// to equal these definitions.
#![tactic(auto)]
