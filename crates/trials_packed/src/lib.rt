// Rows for packed fields: what they say, what is written, each refusal, and their order. There is no code here.
#![tactic(auto)]
