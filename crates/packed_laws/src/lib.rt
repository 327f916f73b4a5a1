// What packed decimal keeps: which fields are read and which refused, and that amounts come through unchanged. There is no code here.
#![tactic(auto)]
