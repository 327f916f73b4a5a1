// Rows for squarings and other products: of chains of every kind, by every call and every method, and as the words that cross the C interface. There is
// no code here.
#![tactic(auto)]
