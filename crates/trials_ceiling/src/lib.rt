// Rows for ceilings: groups of every kind, each method, and refusals. There is no code here.
#![tactic(auto)]
