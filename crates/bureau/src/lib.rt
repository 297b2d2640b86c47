// Two algebras of a bureau's own, brought as any bureau would bring one.
#![tactic(auto)]

pub mod matrices;
pub mod matrix;
pub mod trivial;
