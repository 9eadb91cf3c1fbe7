// No code: what a well-formed document is, without a machine, is in specs/, and the theorems on it in proofs/.
#![tactic(auto)]
