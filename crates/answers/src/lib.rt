// Document 01's answers, written out and computed: a table of cases and a theorem, no code.
#![tactic(auto)]
