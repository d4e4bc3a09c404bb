// Nested sets of kinds and the walk that follows them: definitions and theorems only, for the crates that hold tables.
#![tactic(auto)]
