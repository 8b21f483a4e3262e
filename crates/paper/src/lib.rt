// Theorems over the definitions of the step; there is no code here.

#![tactic(auto)]
