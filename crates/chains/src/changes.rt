// The writes to the chains. Each says of which list of chains the links and the heads are right; a position that is unlinked has 256 there, which is no chain.
// That the chains are right, and that a position lies below their length, are clauses and no invariant, since both change from step to step.
ghost use Rattle.std.specs.Prelude.{◌≡◌, ℕ, ◌-◌, ◌<◌, ◌≤◌, List, [], ◌∷◌, ◌++◌, length, take, IfOk, slice_index, slice_index_or, slice_set};
ghost use Rattle.chains.specs.Chained.{held, nexts, numbers, Wired};

use crate::arena::Arena;
use crate::steps::{chain_of, reset};
use keys::Key;
use std::alloc::{AllocError, Global};

impl<K: Key> Arena<K> {
    /// No pair, and the memory for `limit` of them.
    pub(crate) fn new(heap: Global, limit: usize) -> Result<Arena<K>, AllocError>
        ensures { IfOk result (λ s. (held s ≡ []) × (s.limit ≡ limit) × Wired (numbers K.Key.hashed (held s)) s) }
    {
        let pairs = Vec::with_capacity(heap, limit)?;
        let links = Vec::with_capacity(heap, limit)?;
        Ok(Arena {
            pairs,
            links,
            heads: [0; 256],
            limit,
        })
    }

    /// Takes out all pairs.
    pub(crate) fn clear(&mut self)
        ensures pairs { held self.new ≡ [] }
        ensures limit { self.new.limit ≡ self.old.limit }
        ensures wired { Wired (numbers K.Key.hashed (held self.new)) self.new }
    {
        self.pairs.clear();
        self.links.clear();
        reset(&mut self.heads);
    }

    /// Adds the pair at the end, as the head of its chain.
    pub(crate) fn append(&mut self, key: K, place: usize)
        requires wired { Wired (numbers K.Key.hashed (held self.old)) self.old }
        requires room { length (held self.old) < self.old.limit }
        ensures pairs { held self.new ≡ held self.old ++ (key, place) ∷ [] }
        ensures limit { self.new.limit ≡ self.old.limit }
        ensures wired { Wired (numbers K.Key.hashed (held self.new)) self.new }
    {
        let chain = chain_of(key);
        self.links.push_reserved(self.heads[chain]);
        self.pairs.push_reserved((key, place));
        self.heads[chain] = self.pairs.len();
    }

    /// Takes the last pair off. It is the head of its chain.
    pub(crate) fn pop_last(&mut self) -> (K, usize)
        requires wired { Wired (numbers K.Key.hashed (held self.old)) self.old }
        requires some { 0 < length (held self.old) }
        ensures pair { result ≡ slice_index_or (held self.old) (length (held self.old) - 1) result }
        ensures pairs { held self.new ≡ take (length (held self.old) - 1) (held self.old) }
        ensures limit { self.new.limit ≡ self.old.limit }
        ensures wired { Wired (numbers K.Key.hashed (held self.new)) self.new }
    {
        let last = self.pairs.len() - 1;
        let pair = self.pairs[last];
        self.heads[chain_of(pair.0)] = self.links[last];
        self.pairs.truncate(last);
        self.links.truncate(last);
        pair
    }

    /// Along the chain, whose head is above `bound`, to the last position that is not below it: its link is not above it.
    fn above(&self, chain: usize, bound: usize) -> usize
        requires chain { chain < 256 }
        requires bound { bound < slice_index self.now.heads chain }
        requires wired { (cs : List ℕ) × Wired cs self.now }
        ensures chain { (cs : List ℕ) → Wired cs self.now → slice_index_or cs result 256 ≡ chain }
        ensures within { result < length (nexts self.now) }
        ensures bound { bound ≤ result }
        ensures link { slice_index (nexts self.now) result ≤ bound }
    {
        // Along the links, as in find; it ends at a link, not at a pair.
        let mut at = self.heads[chain];
        loop {
            let next = self.links[at - 1];
            if next <= bound {
                return at - 1;
            }
            at = next;
        }
    }

    /// Takes the position out of its chain.
    fn unlink(&mut self, at: usize)
        requires wired { Wired (numbers K.Key.hashed (held self.old)) self.old }
        requires within { at < length (held self.old) }
        ensures pairs { held self.new ≡ held self.old }
        ensures limit { self.new.limit ≡ self.old.limit }
        ensures wired { Wired (slice_set (numbers K.Key.hashed (held self.new)) at 256) self.new }
    {
        let chain = chain_of(self.pairs[at].0);
        let next = self.links[at];
        if self.heads[chain] == at + 1 {
            self.heads[chain] = next;
        } else {
            let before = self.above(chain, at + 1);
            self.links[before] = next;
        }
    }

    /// Puts the pair at the position, which is in no chain, and links it into the chain of the pair.
    fn link_in(&mut self, at: usize, pair: (K, usize))
        requires wired { Wired (slice_set (numbers K.Key.hashed (held self.old)) at 256) self.old }
        requires within { at < length (held self.old) }
        ensures pairs { held self.new ≡ slice_set (held self.old) at pair }
        ensures limit { self.new.limit ≡ self.old.limit }
        ensures wired { Wired (numbers K.Key.hashed (held self.new)) self.new }
    {
        self.pairs[at] = pair;
        let chain = chain_of(pair.0);
        let head = self.heads[chain];
        if head <= at {
            self.links[at] = head;
            self.heads[chain] = at + 1;
        } else {
            let before = self.above(chain, at);
            self.links[at] = self.links[before];
            self.links[before] = at + 1;
        }
    }

    /// Puts the pair in the place of the one at `at`.
    pub(crate) fn replace(&mut self, at: usize, pair: (K, usize))
        requires wired { Wired (numbers K.Key.hashed (held self.old)) self.old }
        requires within { at < length (held self.old) }
        ensures pairs { held self.new ≡ slice_set (held self.old) at pair }
        ensures limit { self.new.limit ≡ self.old.limit }
        ensures wired { Wired (numbers K.Key.hashed (held self.new)) self.new }
    {
        self.unlink(at);
        self.link_in(at, pair);
    }
}
