//! The laws of the tree of some pairs: each function does nothing, and its contract is the law.
ghost use Rattle.art_operations.specs.Laws.{CountsAreFew, CountsAreFrontsOfPairs, HasFewInnerNodes};

/// The tree of ascending pairs has a leaf for each, and its inner nodes of each kind are counted from the keys alone.
pub fn counts_are_fronts_of_pairs<X>()
    ensures { CountsAreFrontsOfPairs X }
{}

/// It has at most one inner node fewer than pairs, and none if there is no pair or one.
pub fn has_few_inner_nodes<X>()
    ensures { HasFewInnerNodes X }
{}

/// What a place, an end of a range, a range and a part are counted to read is few, told by the longest key alone.
pub fn counts_are_few<X>()
    ensures { CountsAreFew X }
{}
