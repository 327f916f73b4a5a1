// Method 4: the problem that a sheet poses over its groups, and what its levels make. There is no code here.
#![tactic(auto)]
