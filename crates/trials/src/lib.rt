// The worked examples and rows that tie each section of docs/SPEC.md to the definitions of the other crates: orders of refusals, their places, files and
// choices; ranges, methods and the whole path have crates of their own. There is no code here.
#![tactic(auto)]
