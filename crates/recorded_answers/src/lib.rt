// Recorded answers computed from document 01's definitions by the checker. There is no code here.
#![tactic(auto)]
