// Document 01 as definitions. The rules stand in specs/, in the document's order; what was proved of them stands in proofs/.
// There is no code here: the other crates' contracts cite these definitions.
#![tactic(auto)]
