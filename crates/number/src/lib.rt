// Numbers of a document: an integer's nearest float, a float's pattern, the five tests of a number schema, equality.
#![tactic(auto)]

pub mod equal;
pub mod integer;
pub mod multiple;
pub mod real;
pub mod tests;
