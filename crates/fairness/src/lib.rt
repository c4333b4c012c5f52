// A crate of theorems only: what the tray promises in specs/, and its proofs in proofs/.
#![tactic(auto)]
