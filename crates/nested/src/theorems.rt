// Theorems on nested words, runs and summaries, for every semiring and sheet: each is the contract of a function that does nothing.
ghost use Rattle.nested.specs.NestedWords.{End};
ghost use Rattle.nested.specs.Theorems.{TextHasAMatching, MatchingIsUnique, StretchesAreNotTooDeep, JoinIsAssociative, EmptyIsNeutral, JoinReplays, SummariesJoin, TokensMove, WeightIsTheValue, RunsAreAll, RunsStandOnce, PendingTagsAreKept, JoinCounts, LikeMayBeExchanged};

use algebra::interface::Semiring;

// Some relation between positions.
pub trait Relation {
    ghost edges: { End → End → Type 0 };
}

#[tactic(auto, using(crate::proofs::Matchings::text_matching))]
pub fn text_has_a_matching()
    ensures { TextHasAMatching }
{}

#[tactic(auto, using(crate::proofs::Matchings::edge_of, crate::proofs::Matchings::of_edge))]
pub fn matching_is_unique<R: Relation>()
    ensures { MatchingIsUnique R.edges }
{}

#[tactic(auto, using(crate::proofs::Joins::join_assoc, algebra::proofs::TableLaws::table_laws))]
pub fn join_is_associative<S: Semiring>()
    ensures { JoinIsAssociative S.ops }
{}

pub fn empty_is_neutral<S: Semiring>()
    ensures { EmptyIsNeutral S.ops }
{}

#[tactic(auto, using(crate::proofs::Joins::join_replay, algebra::proofs::TableLaws::table_laws))]
pub fn join_replays<S: Semiring>()
    ensures { JoinReplays S.ops }
{}

pub fn summaries_join<S: Semiring>()
    ensures { SummariesJoin S.ops }
{}

pub fn tokens_move<S: Semiring>()
    ensures { TokensMove S.ops }
{}

#[tactic(auto, using(crate::proofs::Weighing::weight_value))]
pub fn weight_is_the_value<S: Semiring>()
    ensures { WeightIsTheValue S.ops }
{}

#[tactic(auto, using(crate::proofs::RunLists::listed_run, crate::proofs::RunLists::run_listed))]
pub fn runs_are_all<S: Semiring>()
    ensures { RunsAreAll S.ops }
{}

pub fn runs_stand_once<S: Semiring>()
    ensures { RunsStandOnce S.ops }
{}

pub fn pending_tags_are_kept<S: Semiring>()
    ensures { PendingTagsAreKept S.ops }
{}

#[tactic(auto, using(crate::proofs::PendingTags::join_closes, crate::proofs::PendingTags::join_opens))]
pub fn join_counts<S: Semiring>()
    ensures { JoinCounts S.ops }
{}

pub fn stretches_are_not_too_deep()
    ensures { StretchesAreNotTooDeep }
{}

pub fn like_may_be_exchanged<S: Semiring>()
    ensures { LikeMayBeExchanged S.ops }
{}
