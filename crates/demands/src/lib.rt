// Theorems over the definitions of the run; there is no code here.

#![tactic(auto)]
