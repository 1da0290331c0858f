// Document 01, "What the contracts pin", demand 3: bases may be grouped. Theorems over the definitions; there is no code here.
#![tactic(auto)]
