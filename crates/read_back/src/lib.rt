// Theorems only: what the writers' definition writes, the readers' definition reads back.
#![tactic(auto)]
