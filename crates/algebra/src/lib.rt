// Weight algebras: the interface and its laws, and the mathematics of sums, products and tables.
#![tactic(auto)]

pub mod below;
pub mod interface;
pub mod theorems;
