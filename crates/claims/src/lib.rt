// Theorems of the functions' own promises; there is no code here.
#![tactic(auto)]
