// Many paths in one call (S2.5): definitions and what holds of every batch. `batch` has the code.

#![tactic(auto)]
