// Schema records as data types, for the definitions of the visit and of compiling.
#![tactic(auto)]
