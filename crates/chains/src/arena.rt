// What the chains are made of, right or not.
ghost use Rattle.std.specs.Prelude.{◌≡◌, ◌≤◌, length, vec_len, vec_capacity};

use keys::Key;

/// All pairs in one row, and the chains over it, with room for `limit` pairs.
/// A link is one more than a position, and 0 ends a chain. Links point down: a pair is linked to the last one before it in its chain.
// Links are positions in a Vec, which has its memory from the opening on: with a Box for each, put would allocate, and no call may.
// They have a Vec of their own: beside the pairs, each step along a chain waits for a multiplication, and took half as long again.
// That the chains are right is no ghost field here, but one of Chains: between `unlink` and `link_in` they are not.
// Links are plain numbers, not Options: 0 is below every bound that a walk stops at.
#[derive(Drop)]
pub(crate) struct Arena<K: Key> {
    pub(crate) pairs: Vec<(K, usize)>,
    pub(crate) links: Vec<usize>,
    pub(crate) heads: [usize; 256],
    pub(crate) limit: usize,
    ghost few: { vec_len pairs ≤ limit },
    ghost room: { limit ≤ vec_capacity pairs },
    ghost linked: { vec_len links ≡ vec_len pairs },
    ghost space: { limit ≤ vec_capacity links },
    ghost fixed: { length heads ≡ 256 },
}
