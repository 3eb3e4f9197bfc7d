// The index, in order.
ghost use Rattle.std.specs.Prelude.{◌≡◌, ◌≤◌, [], vec_len, vec_capacity, IfOk};
ghost use Rattle.std.specs.List.Sorted.{IsStrictlySortedBy};
ghost use Rattle.std.proofs.lemmas.Map.Keys.{IsStrictlySortedBy-prop};
ghost use Rattle.index.specs.Sets.{pair_order};

use keys::Key;
use std::alloc::{AllocError, Global};

/// The places of keys, in order of key and then place, with room for `limit` pairs.
// A BTreeSet would allocate as it grows, and no call may.
#[derive(Drop)]
pub struct InOrder<K: Key> {
    pub(crate) pairs: Vec<(K, usize)>,
    pub(crate) limit: usize,
    ghost few: { vec_len pairs ≤ limit },
    ghost room: { limit ≤ vec_capacity pairs },
    ghost sorted: { IsStrictlySortedBy (pair_order K.Key.order) pairs.items } by { IsStrictlySortedBy-prop (pair_order K.Key.order) pairs.items },
}

impl<K: Key> InOrder<K> {
    ghost use Rattle.ordered.specs.Rows.{items};

    /// An empty index with the memory for `capacity` pairs.
    #[tactic(auto, using(crate::proofs::Rows::none_sorted))]
    pub fn new(heap: Global, capacity: usize) -> Result<InOrder<K>, AllocError>
        ensures { IfOk result (λ s. (items s ≡ []) × (s.limit ≡ capacity)) }
    {
        let pairs = Vec::with_capacity(heap, capacity)?;
        Ok(InOrder {
            pairs,
            limit: capacity,
        })
    }
}
