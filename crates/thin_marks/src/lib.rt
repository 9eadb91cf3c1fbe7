// What holds of a sheet made thin, and of any two sheets that hold one document: theorems alone.
#![tactic(auto)]
