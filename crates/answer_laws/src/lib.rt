// What holds of the calls' answers: what five of them tell of a chain's steps, and that none is cut on its way across the C interface. There is no code here.
#![tactic(auto)]
