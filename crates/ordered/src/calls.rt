// The calls of the index.
ghost use Rattle.std.specs.Prelude.{◌≡◌, ◌+◌, ◌<◌, ◌≤◌, vec_len, vec_capacity};
ghost use Rattle.std.specs.List.{insert, remove};
ghost use Rattle.std.proofs.Common.{subst};
ghost use Rattle.std.proofs.lemmas.Map.Keys.{IsDistinct-from_sorted};
ghost use Rattle.index.specs.Sets.{pair_order};
ghost use Rattle.ordered.specs.Rows.{items, key_start};

use crate::in_order::InOrder;
use crate::search::Start;
use index::{Index, IndexFault, Put};
use keys::Key;

/// Where the search for the next key begins.
fn key_start(strictly: bool) -> Start
    ensures { result ≡ key_start strictly }
{
    if strictly { Start::After } else { Start::At(0) }
}

/// Puts the pair before the one at `at`.
fn insert_pair<K: Key>(pairs: &mut Vec<(K, usize)>, at: usize, key: K, place: usize)
    requires inside { at ≤ vec_len pairs.old }
    requires room { vec_len pairs.old < vec_capacity pairs.old }
    ensures items { pairs.new.items ≡ insert pairs.old.items at (key, place) }
    ensures len { vec_len pairs.new ≡ vec_len pairs.old + 1 }
    ensures room { vec_capacity pairs.old ≤ vec_capacity pairs.new }
{
    // There is room, so it cannot fail.
    let _ = pairs.insert(at, (key, place));
}

/// Takes out the pair at `at`.
fn cut_pair<K: Key>(pairs: &mut Vec<(K, usize)>, at: usize)
    requires { at < vec_len pairs.old }
    ensures items { pairs.new.items ≡ remove pairs.old.items at }
    ensures len { vec_len pairs.new + 1 ≡ vec_len pairs.old }
    ensures room { vec_capacity pairs.new ≡ vec_capacity pairs.old }
{
    let _ = pairs.remove(at);
}

impl<K: Key> Index for InOrder<K> {
    type Key = K;

    ghost pairs = { items };

    ghost limit = { λ s. s.limit };

    ghost distinct = { λ s. IsDistinct-from_sorted (pair_order K.Key.order) (items s) s.sorted };

    ghost within = { λ s. subst (λ n. n ≤ s.limit) s.pairs.ok.0 s.few };

    fn capacity(&self) -> usize {
        self.limit
    }

    #[tactic(auto, using(crate::proofs::Changes::put_sorted))]
    fn put(&mut self, key: K, place: usize) -> Result<Put, IndexFault> {
        let Err(at) = self.find(key, place) else {
            return Ok(Put::Present);
        };
        let capacity = self.capacity();
        if self.pairs.len() >= capacity {
            return Err(IndexFault { capacity });
        }
        insert_pair(&mut self.pairs, at, key, place);
        Ok(Put::Added)
    }

    #[tactic(auto, using(crate::proofs::Changes::remove_sorted))]
    fn remove(&mut self, key: K, place: usize) -> bool {
        let Ok(at) = self.find(key, place) else {
            return false;
        };
        cut_pair(&mut self.pairs, at);
        true
    }

    fn next_place(&self, key: K, from: usize) -> Option<usize> {
        self.first(key, Start::At(from))
            .filter(|pair| key.equals(&pair.0))
            .map(|pair| pair.1)
    }

    fn next_key(&self, key: K, strictly: bool) -> Option<K> {
        self.first(key, key_start(strictly)).map(|pair| pair.0)
    }

    #[tactic(auto, using(crate::proofs::Rows::none_sorted))]
    fn clear(&mut self) {
        self.pairs.clear();
    }
}
