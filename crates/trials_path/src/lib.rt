// Rows for the whole path, with each of its calls refused in turn. There is no code here.
#![tactic(auto)]
