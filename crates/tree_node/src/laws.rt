//! The laws of trees as values, each the contract of a function that does nothing.

ghost use Rattle.tree_node.specs.Laws.{JoinIsLeastBox, OneLeastBox};
ghost use Rattle.tree_node.specs.Laws.{AdmittedAreCounted, AdmittedAreReached, NoObjectIsMissed};
ghost use Rattle.tree_node.specs.Laws.{CountsGoOn, CountsRise, PairsAreOfNodes, PairsGoBothWays};
ghost use Rattle.tree_node.specs.Laws.{EqualSumsPermute, PartsHaveAll};

/// A node has one least box, the join of those of its entries.
#[tactic(auto, using(crate::proofs::BoxLemmas::box_laws))]
pub fn a_node_has_one_least_box()
    ensures one { OneLeastBox }
    ensures joined { JoinIsLeastBox }
{}

/// The nodes that a search admits are the root and those of which a box passes its test. Under the shape of a
/// tree they are just those that are reached through such boxes.
#[tactic(auto, using(crate::proofs::SearchLemmas::search_laws, crate::proofs::JoinLemmas::join_laws))]
pub fn admitted_nodes_are_reached()
    ensures counted { AdmittedAreCounted }
    ensures reached { AdmittedAreReached }
{}

/// Under the shape a search through the boxes of children misses no object.
#[tactic(auto, using(crate::proofs::SearchLemmas::search_laws))]
pub fn searches_miss_nothing()
    ensures { NoObjectIsMissed }
{}

/// The pairs of nodes that a join admits are as many either way round, and no more than there are.
#[tactic(auto, using(crate::proofs::JoinLemmas::join_laws))]
pub fn a_join_admits_pairs_of_nodes()
    ensures turned { PairsGoBothWays }
    ensures few { PairsAreOfNodes }
{}

/// A count up to the greatest u64 never falls back, and counting on is counting all at once.
#[tactic(auto, using(crate::proofs::SearchLemmas::search_laws))]
pub fn counts_rise()
    ensures on { CountsGoOn }
    ensures rise { CountsRise }
{}

/// What is picked at two parts of the positions has together what the list has.
#[tactic(auto, using(crate::proofs::PositionLemmas::parts_have_all))]
pub fn parts_have_all<T>()
    ensures { PartsHaveAll T }
{}

/// Two lists of objects of which each sum over the elements is the same have the same elements.
#[tactic(auto, using(crate::proofs::ObjectLemmas::object_laws))]
pub fn equal_sums_permute()
    ensures { EqualSumsPermute }
{}
