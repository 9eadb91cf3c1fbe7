// What holds of two statements joined: theorems alone.
#![tactic(auto)]
