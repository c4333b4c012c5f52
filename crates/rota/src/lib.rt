// A crate of theorems only: the model of a round of waiting jobs in specs/, and its laws in proofs/.
#![tactic(auto)]
