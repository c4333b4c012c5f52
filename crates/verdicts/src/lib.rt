// Theorems only: a log's verdict is what its first line that begins with `s ` says, and none if it has no such line.
#![tactic(auto)]
