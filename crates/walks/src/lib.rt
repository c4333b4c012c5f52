// Laws only: what the proofs by hand of functions over references share.
#![tactic(auto)]
