// The search among the pairs.
ghost use Rattle.std.specs.Prelude.{◌≡◌, length};
ghost use Rattle.std.specs.List.Sorted.{IsBinarySearchResult, IsSearchInRange};
ghost use Rattle.index.specs.Sets.{pair_order};
ghost use Rattle.ordered.specs.Rows.{items, reached, First};

use crate::in_order::InOrder;
use keys::Key;
use std::cmp::Ordering;

/// Where a search begins among the pairs of a key: at a place, or after all of them.
// Not an Option: None would have to mean "after all places of the key".
#[derive(Clone, Copy)]
pub(crate) enum Start {
    At(usize),
    After,
}

/// By key, and then by place.
fn compare_pairs<K: Key>(left: (K, usize), right: (K, usize)) -> Ordering
    ensures { result ≡ pair_order K.Key.order left right }
{
    left.0.compare(&right.0).then(left.1.cmp(&right.1))
}

/// Whether the pair is at the start that is asked for, or after it.
fn is_reached<K: Key>(key: K, start: Start, pair: (K, usize)) -> bool
    ensures { result ≡ reached K.Key.order key start pair }
{
    match start {
        Start::At(place) => compare_pairs((key, place), pair).is_le(),
        Start::After => key.compare(&pair.0).is_lt(),
    }
}

impl<K: Key> InOrder<K> {
    /// Where the pair stands, or else where it would.
    pub(crate) fn find(&self, key: K, place: usize) -> Result<usize, usize>
        ensures within { IsSearchInRange result (length (items self.now)) }
        ensures position { IsBinarySearchResult (λ y. pair_order K.Key.order y (key, place)) (items self.now) result }
    {
        self.pairs
            .binary_search_by(|pair| compare_pairs(*pair, (key, place)))
    }

    /// The first pair that is reached.
    pub(crate) fn first(&self, key: K, start: Start) -> Option<(K, usize)>
        ensures { First K.Key.order (items self.now) key start result }
    {
        let at = self
            .pairs
            .partition_point(|pair| !is_reached(key, start, *pair));
        self.pairs.get(at).copied()
    }
}
