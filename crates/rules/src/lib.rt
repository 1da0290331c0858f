// When a schema record is good.
#![tactic(auto)]

pub mod schemas;
