// The steps of a walk, and of a clearing.
ghost use Rattle.std.specs.Prelude.{◌≡◌, ℕ, ◌<◌, length, slice_index, if◌then◌else◌};
ghost use Rattle.index.specs.Sets.{tie, reaches};
ghost use Rattle.chains.specs.Chained.{bucket};
ghost use Rattle.chains.specs.Best.{lower_of, nearer_of};

use keys::Key;
use std::cmp::Ordering;

/// Ends each chain where it begins.
pub(crate) fn reset(heads: &mut [usize; 256])
    ensures zeros { (c : ℕ) → c < 256 → slice_index heads.new c ≡ 0 }
    ensures fixed { length heads.new ≡ 256 }
{
    heads.fill(0);
}

/// The chain of a key.
pub(crate) fn chain_of<K: Key>(key: K) -> usize
    ensures { result ≡ bucket K.Key.hashed key }
{
    (key.hash() % 256) as usize
}

/// Whether the pair is that of the key and the place.
pub(crate) fn is_pair<K: Key>(pair: &(K, usize), key: K, place: usize) -> bool
    ensures { result ≡ tie K.Key.order (key, place) pair.now }
{
    key.equals(&pair.0) && place == pair.1
}

/// The lower of the best place so far and `place`, which counts only from `from` on.
fn lower(best: Option<usize>, from: usize, place: usize) -> Option<usize>
    ensures { result ≡ lower_of best from place }
{
    if place < from {
        best
    } else {
        Some(best.map_or(place, |b| b.min(place)))
    }
}

/// The best place once the pair is looked at, which counts only where it has the key.
pub(crate) fn better<K: Key>(
    best: Option<usize>,
    key: K,
    from: usize,
    pair: &(K, usize),
) -> Option<usize>
    ensures { result ≡ (if K.Key.equal key pair.now.0 then lower_of best from pair.now.1 else best) }
{
    if key.equals(&pair.0) {
        lower(best, from, pair.1)
    } else {
        best
    }
}

/// Whether a key that compares so with the one that is asked for is far enough.
fn far_enough(order: Ordering, strictly: bool) -> bool
    ensures { result ≡ reaches strictly order }
{
    // A `match`, here and in `nearer`: next_key asks at every pair, and with is_lt, is_le and map_or it took more than twice as long.
    match order {
        Ordering::Less => true,
        Ordering::Equal => !strictly,
        Ordering::Greater => false,
    }
}

/// The lower of the best key so far and `other`, which counts only where it is far enough.
pub(crate) fn nearer<K: Key>(best: Option<K>, key: K, strictly: bool, other: K) -> Option<K>
    ensures { result ≡ nearer_of K.Key.order best key strictly other }
{
    if !far_enough(key.compare(&other), strictly) {
        return best;
    }
    match best {
        Some(b) => {
            if other.compare(&b).is_lt() {
                Some(other)
            } else {
                Some(b)
            }
        }
        None => Some(other),
    }
}
