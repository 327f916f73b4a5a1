// What a pool keeps of its two parts: the check and the run find in it what they find in them. There is no code here.
#![tactic(auto)]
