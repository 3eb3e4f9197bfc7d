// The calls of the index.
ghost use Rattle.std.specs.Prelude.{◌≡◌, ◌≤◌};
ghost use Rattle.std.proofs.Common.{subst};
ghost use Rattle.chains.specs.Chained.{held};

use crate::chains::Chains;
use crate::steps::{better, chain_of, nearer};
use index::{Index, IndexFault, Put};
use keys::Key;

impl<K: Key> Index for Chains<K> {
    type Key = K;

    ghost pairs = { λ s. held s.arena };

    ghost limit = { λ s. s.arena.limit };

    ghost distinct = { λ s. s.once };

    ghost within = { λ s. subst (λ n. n ≤ s.arena.limit) s.arena.pairs.ok.0 s.arena.few };

    fn capacity(&self) -> usize {
        self.arena.limit
    }

    fn put(&mut self, key: K, place: usize) -> Result<Put, IndexFault> {
        if self.find(key, place).is_some() {
            return Ok(Put::Present);
        }
        let capacity = self.capacity();
        if self.arena.pairs.len() >= capacity {
            return Err(IndexFault { capacity });
        }
        self.arena.append(key, place);
        Ok(Put::Added)
    }

    /// Takes the pair out: the last pair takes its position.
    fn remove(&mut self, key: K, place: usize) -> bool {
        let Some(at) = self.find(key, place) else {
            return false;
        };
        let last = self.arena.pop_last();
        if at < self.arena.pairs.len() {
            self.arena.replace(at, last);
        }
        true
    }

    fn next_place(&self, key: K, from: usize) -> Option<usize> {
        // Along the links, as in find.
        let mut best = None;
        let mut at = self.arena.heads[chain_of(key)];
        while at > 0 {
            best = better(best, key, from, &self.arena.pairs[at - 1]);
            at = self.arena.links[at - 1];
        }
        best
    }

    fn next_key(&self, key: K, strictly: bool) -> Option<K> {
        let mut best = None;
        for pair in &self.arena.pairs {
            best = nearer(best, key, strictly, pair.0);
        }
        best
    }

    fn clear(&mut self) {
        self.arena.clear();
    }
}
