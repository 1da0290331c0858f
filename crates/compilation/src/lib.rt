// What compiling gives, as document 01 has it and as the tables hold it: definitions, and the proof that both are one.
#![tactic(auto)]
