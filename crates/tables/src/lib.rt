// The check of all eight tables: it refuses a damaged one by its table and record.
#![tactic(auto)]

pub mod check;
mod walk;
