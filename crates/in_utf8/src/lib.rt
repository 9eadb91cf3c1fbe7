// No code: the theorem that a message is UTF-8 is in proofs/.
#![tactic(auto)]
