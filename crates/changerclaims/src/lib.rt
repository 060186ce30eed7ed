// Theorems alone: what the changer promises, over the definitions that the contracts cite.
#![tactic(auto)]
