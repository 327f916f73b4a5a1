// Rows for both ends of every range, and for each sentence of docs/SPEC.md about the methods. There is no code here.
#![tactic(auto)]
