// Rows for method 4: sheets of one, two and three levels, step for step, and what a level makes of its lists. There is no code here.
#![tactic(auto)]
