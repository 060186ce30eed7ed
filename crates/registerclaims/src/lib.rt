// Theorems alone: what the registers promise, over the definitions that the contracts cite.
#![tactic(auto)]
