// Worked examples: document 01's definitions computed by the checker on stores of a few blocks. There is no code here.
#![tactic(auto)]
