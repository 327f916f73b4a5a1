// Method 3, partition: its definitions and laws. There is no code here.
#![tactic(auto)]
