// Rows for pools: what is pooled, each refusal in either part, and their order. There is no code here.
#![tactic(auto)]
