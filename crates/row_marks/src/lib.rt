// No code: what the list of a row's statement is, column by column, is defined in specs/, and proved in proofs/.
#![tactic(auto)]
