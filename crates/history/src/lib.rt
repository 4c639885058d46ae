// Demand 3: one theorem about every list of calls, over `rules` alone. There is no code here.
//
// proofs/Demand3.antt has the theorem; proofs/Lib.antt leads from it down.
#![tactic(auto)]
