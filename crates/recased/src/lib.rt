// What holds where the case of functions' names is changed: theorems alone.
#![tactic(auto)]
