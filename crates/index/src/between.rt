// The pairs of an index one after another, by key and then place.
ghost use Rattle.std.specs.Prelude.{◌≡◌};
ghost use Rattle.std.specs.Iterator.{YieldsFirst, item_count};
ghost use Rattle.index.specs.Listed.{rest, up_to_max, after};

use crate::{Index, next_pair};
use std::marker::Model;

/// The pairs of an index that are still ahead, seen as their list. After one at the place `usize::MAX` none is.
#[derive(Drop)]
pub struct PairsBetween<'a, I: Index> {
    index: &'a I,
    // The key and the place that the next pair is not below; none where nothing is ahead.
    from: Option<(I::Key, usize)>,
    upper: I::Key,
}

impl<'a, I: Index> Model for PairsBetween<'a, I> {
    ghost use Rattle.std.specs.Prelude.{ℕ, List};
    ghost use Rattle.index.specs.Listed.{ahead};

    ghost Value = { List (I.Key × ℕ) };

    ghost view = { λ s. ahead I.Key.Key.order s.from s.upper (I.pairs s.index.now) };
}

/// The pairs whose key is not below `lower` and not above `upper`.
pub fn pairs_between<'a, I: Index>(
    index: &'a I,
    lower: I::Key,
    upper: I::Key,
) -> PairsBetween<'a, I>
    ensures { result ≡ up_to_max (rest I.Key.Key.order lower 0 upper (I.pairs index.now)) }
{
    PairsBetween {
        index,
        from: Some((lower, 0)),
        upper,
    }
}

// The key, and the place above this one; none where this is the last place.
fn after<K: Copy>(pair: (K, usize)) -> Option<(K, usize)>
    ensures { result ≡ after pair }
{
    let (key, place) = pair;
    place.checked_add(1).map(|from| (key, from))
}

impl<I: Index> Iterator for PairsBetween<'_, I> {
    type Item = (I::Key, usize);

    ghost next_gives = { YieldsFirst (λ left. left) };

    ghost remaining = { item_count (λ left. left) };

    fn next(&mut self) -> Option<(I::Key, usize)> {
        let (key, from) = self.from?;
        let found = next_pair(self.index, key, from, self.upper);
        self.from = found.and_then(after);
        found
    }
}
