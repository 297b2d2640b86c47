// Theorems on sums and tables over every semiring: each is the contract of a function that does nothing.
ghost use Rattle.algebra.specs.Theorems.{ListsAreAll, ListsStandOnce, TablesAreASemiring, ProductsSumWalks};

use crate::interface::Semiring;

pub fn tables_are_a_semiring<S: Semiring>(n: usize)
    ensures { TablesAreASemiring S.ops n }
{}

#[tactic(auto, using(crate::proofs::Walks::walks))]
pub fn products_sum_walks<S: Semiring>(n: usize)
    ensures { ProductsSumWalks S.ops n }
{}

#[tactic(auto, using(crate::proofs::Lists::of_all_lists, crate::proofs::Lists::in_lists))]
pub fn lists_are_all()
    ensures { ListsAreAll }
{}

pub fn lists_stand_once<S: Semiring>()
    ensures { ListsStandOnce S.ops }
{}
