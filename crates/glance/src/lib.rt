// A glance at what mostly holds: tests that are cheaper than the judgement, by numbers where it compares bytes. Yes says that the
// judgement is fine; no says nothing, and the judgement is to be made.
#![tactic(auto)]

pub mod leaf;
pub mod object;
