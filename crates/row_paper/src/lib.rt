// No code: the statement of a row is defined in specs/, and that its sheet is accepted is proved in proofs/.
#![tactic(auto)]
