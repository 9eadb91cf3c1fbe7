// Tokens that stand elsewhere, in another document or another tree: what is read of them, and what they say, moved. No
// code.
#![tactic(auto)]
