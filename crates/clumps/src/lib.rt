// Clumps of indices, and the levels of clumping over a problem of inputs and outputs. There is no code here.
#![tactic(auto)]
