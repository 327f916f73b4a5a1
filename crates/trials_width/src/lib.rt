// Rows for widths: both ends of every case, and files on both sides of them. There is no code here.
#![tactic(auto)]
