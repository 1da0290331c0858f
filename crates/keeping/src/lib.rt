// Document 01, "Compiling": what a compile leaves passes the check, so that it can be validated with. Theorems over the definitions; there is no code here.
#![tactic(auto)]
