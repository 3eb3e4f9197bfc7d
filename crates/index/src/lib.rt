// What an index is: a set of pairs of a key and a place, with room for a fixed number of pairs.
#![tactic(auto)]

ghost use Rattle.std.specs.Prelude.{◌≡◌, ℕ, ◌≤◌, List, [], length};
ghost use Rattle.std.specs.List.{IsDistinct};
ghost use Rattle.index.specs.Sets.{tie, holds, Lowest, LowestKey};
ghost use Rattle.index.specs.Answers.{PutSays, RemoveSays};
ghost use Rattle.std.specs.Ordering.{is_eq, is_gt};
ghost use Rattle.index.specs.Listed.{Next};

use keys::Key;

mod between;

pub use between::{PairsBetween, pairs_between};

/// What `put` says of a pair that now is in the set.
#[derive(Clone, Copy, PartialEq, Eq, Debug)]
pub enum Put {
    Added,
    Present,
}

/// The fault of an index: it is full, and has the capacity.
#[derive(Clone, Copy, PartialEq, Eq, Debug)]
pub struct IndexFault {
    pub capacity: usize,
}

/// A set of pairs (key, place) with a capacity.
pub trait Index {
    /// The kind of key that it keeps.
    type Key: Key;

    /// The pairs of the set, each once, in no order that a caller may count on.
    ghost pairs: { Self → List (Self.Key × ℕ) };

    /// How many pairs fit; no call changes it.
    ghost limit: { Self → ℕ };

    fn capacity(&self) -> usize
        ensures { result ≡ limit self.now };

    /// Adds the pair, unless it is in the set or the set is at its capacity.
    fn put(&mut self, key: Self::Key, place: usize) -> Result<Put, IndexFault>
        ensures says { PutSays Self.Key.Key.order (pairs self.old) (pairs self.new) (limit self.old) (key, place) result }
        ensures limit { limit self.new ≡ limit self.old };

    /// Takes the pair out, and says whether it was there.
    fn remove(&mut self, key: Self::Key, place: usize) -> bool
        ensures says { RemoveSays Self.Key.Key.order (pairs self.old) (pairs self.new) (key, place) result }
        ensures limit { limit self.new ≡ limit self.old };

    /// The lowest place of the key that is not below `from`.
    fn next_place(&self, key: Self::Key, from: usize) -> Option<usize>
        ensures { Lowest (λ p. holds Self.Key.Key.order (pairs self.now) (key, p)) from result };

    /// The lowest key of the set that is not below `key`, or that is above it.
    fn next_key(&self, key: Self::Key, strictly: bool) -> Option<Self::Key>
        ensures { LowestKey Self.Key.Key.order (pairs self.now) key strictly result };

    /// Empties the set.
    fn clear(&mut self)
        ensures pairs { pairs self.new ≡ [] }
        ensures limit { limit self.new ≡ limit self.old };

    ghost distinct: { (s : Self) → IsDistinct (tie Self.Key.Key.order) (pairs s) };

    ghost within: { (s : Self) → length (pairs s) ≤ limit s };
}

// The key is above the upper one.
fn is_beyond<K: Key>(key: &K, upper: &K) -> bool
    ensures { result ≡ is_gt (K.Key.order key.now upper.now) }
{
    key.compare(upper).is_gt()
}

// The key is the upper one.
fn is_last<K: Key>(key: &K, upper: &K) -> bool
    ensures { result ≡ is_eq (K.Key.order key.now upper.now) }
{
    key.compare(upper).is_eq()
}

/// The first pair not below (key, from), by key and then place, whose key is not above `upper`.
pub fn next_pair<I: Index>(
    index: &I,
    key: I::Key,
    from: usize,
    upper: I::Key,
) -> Option<(I::Key, usize)>
    ensures { Next I.Key.Key.order key from upper (I.pairs index.now) result }
{
    if is_beyond(&key, &upper) {
        return None;
    }
    if let Some(place) = index.next_place(key, from) {
        return Some((key, place));
    }
    if is_last(&key, &upper) {
        return None;
    }
    let next = index.next_key(key, true)?;
    if is_beyond(&next, &upper) {
        return None;
    }
    let place = index.next_place(next, 0)?;
    Some((next, place))
}
