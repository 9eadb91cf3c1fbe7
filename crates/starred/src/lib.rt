// The cases that were fixed beforehand, from bytes to what the check does: theorems alone.
#![tactic(auto)]
