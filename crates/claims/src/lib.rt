// Theorems alone: what the drive promises, over the definitions that the contracts cite.
#![tactic(auto)]
