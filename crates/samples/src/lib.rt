// Small sheets by every method and parameter, computed by the definitions of the other crates. There is no code here.
#![tactic(auto)]
