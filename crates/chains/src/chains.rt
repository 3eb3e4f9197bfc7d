// The index of chains.
ghost use Rattle.std.specs.Prelude.{◌≡◌, ◌<◌, false, [], length, IfOk, MatchOption, slice_index_or};
ghost use Rattle.std.proofs.lemmas.Map.Keys.{IsDistinct-prop};
ghost use Rattle.index.specs.Sets.{tie, holds};
ghost use Rattle.chains.specs.Chained.{held, Once, LinksRight, HeadsRight};

use crate::arena::Arena;
use crate::steps::{chain_of, is_pair};
use keys::Key;
use std::alloc::{AllocError, Global};

/// A set of pairs of a key and a place, with room for a fixed number of pairs.
#[derive(Drop)]
pub struct Chains<K: Key> {
    pub(crate) arena: Arena<K>,
    ghost once: { Once K.Key.order arena } by { IsDistinct-prop (tie K.Key.order) (held arena) },
    ghost links: { LinksRight K.Key.hashed arena },
    ghost heads: { HeadsRight K.Key.hashed arena },
}

impl<K: Key> Chains<K> {
    /// An empty set with room for `capacity` pairs.
    pub fn new(heap: Global, capacity: usize) -> Result<Chains<K>, AllocError>
        ensures { IfOk result (λ s. (held s.arena ≡ []) × (s.arena.limit ≡ capacity)) }
    {
        let arena = Arena::new(heap, capacity)?;
        Ok(Chains { arena })
    }

    /// Where the pair stands.
    pub(crate) fn find(&self, key: K, place: usize) -> Option<usize>
        ensures { MatchOption result (holds K.Key.order (held self.now.arena) (key, place) ≡ false) (λ i. (i < length (held self.now.arena)) × ((key, place) ≡ slice_index_or (held self.now.arena) i (key, place))) }
    {
        let mut at = self.arena.heads[chain_of(key)];
        // Along the links by hand, here, in next_place and in above: what an iterator of links yields would have to be tied to
        // the chain anew, and the loop says it in one line.
        while at > 0 {
            if is_pair(&self.arena.pairs[at - 1], key, place) {
                return Some(at - 1);
            }
            at = self.arena.links[at - 1];
        }
        None
    }
}
