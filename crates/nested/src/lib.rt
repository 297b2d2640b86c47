// Nested words, the runs of a sheet on them, and summaries: what the library means, and the theorems about it.
#![tactic(auto)]

pub mod theorems;
pub mod token;
