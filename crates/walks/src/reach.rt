// The version that a pair of the index, or a note, leads to.
ghost use Rattle.std.specs.Prelude.{◌≡◌, ◌<◌, length, OnOk};
ghost use Rattle.rules.specs.Keys.{same};
ghost use Rattle.rules.specs.Reaching.{fitting, reached};

use keys::Key;
use rules::{Entry, Refusal};
use seeing::{End, Slots, Version};
use tables::held_at;

// The version is under the key, and names no unknown transaction.
fn is_fitting<K: Key, V: Copy>(slots: &Slots, key: K, version: &Version<K, V>) -> bool
    ensures { result ≡ fitting K.Key.order slots.now key version.now }
{
    key.compare(&version.key).is_eq()
        && End::from(version.begin).is_known(slots)
        && version.end.is_known(slots)
}

/// The place and the version that a pair of the index, or a note, leads to.
// A pair, and no struct: the rules' definitions speak of the two as a pair.
pub fn reach_one<K: Key, V: Copy>(
    slots: &Slots,
    versions: &[Entry<Version<K, V>>],
    key: K,
    place: usize,
) -> Result<(usize, Version<K, V>), Refusal>
    ensures says { result ≡ reached K.Key.order slots.now versions.now (key, place) }
    ensures inside { OnOk result (place < length versions.now) }
{
    // Not by `filter` and `map`: each moves the version once more, and a read took a third longer.
    let Some(version) = held_at(versions, place) else {
        return Err(Refusal::Version);
    };
    if !is_fitting(slots, key, &version) {
        return Err(Refusal::Version);
    }
    Ok((place, version))
}
