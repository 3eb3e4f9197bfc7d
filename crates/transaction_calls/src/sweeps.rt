// Sweep: the versions that no transaction can see any more are freed.
ghost use Rattle.rules.specs.Checks.{Comes};
ghost use Rattle.rules.specs.Worlds.{around};
ghost use Rattle.std.specs.Prelude.{◌≡◌, not, map, is_some};
ghost use Rattle.index.specs.Listed.{listed, keep};
ghost use Rattle.rules.specs.Lists.{count};
ghost use Rattle.rules.specs.Tables.{entry};
ghost use Rattle.rules.specs.Index.{meaning};
ghost use Rattle.rules.specs.TableRules.{to_sweep, swept_entry, sweeps_pair, sweep_rule};
ghost use Rattle.transaction_calls.specs.Sweeping.{key_to_sweep, freed_at, taken_out};

use index::Index;
use keys::Key;
use rules::{Answer, Entry, Note, Refusal, Store};
use seeing::{Slots, Version};
use slots::is_past;
use tables::{Sizes, held_at, set_at};

// The key of the version, if it is to be swept.
fn key_to_sweep<K: Copy, V: Copy>(slots: &Slots, held: Option<Version<K, V>>) -> Option<K>
    ensures { result ≡ key_to_sweep slots.now held }
{
    let version = held?;
    is_past(slots, version.end).then_some(version.key)
}

// The entry at the place is freed and its pair taken out, if its version is to be swept; whether so.
fn sweep_at<I: Index, V: Copy>(
    slots: &Slots,
    versions: &mut [Entry<Version<I::Key, V>>],
    index: &mut I,
    place: usize,
) -> bool
    ensures tells { result ≡ is_some (key_to_sweep slots.now (entry versions.old place)) }
    ensures frees { versions.new ≡ freed_at place (key_to_sweep slots.now (entry versions.old place)) versions.old }
    ensures takes { listed I.Key.Key.order (I.pairs index.new) ≡ taken_out I.Key.Key.order place (key_to_sweep slots.now (entry versions.old place)) (listed I.Key.Key.order (I.pairs index.old)) }
    ensures limit { I.limit index.new ≡ I.limit index.old }
{
    let Some(key) = key_to_sweep(slots, held_at(versions, place)) else {
        return false;
    };
    let _was_there = index.remove(key, place);
    set_at(versions, place, Entry::free());
    true
}

// All versions that are to be swept are freed and their pairs taken out; how many.
fn sweep_all<I: Index, V: Copy>(
    slots: &Slots,
    versions: &mut [Entry<Version<I::Key, V>>],
    index: &mut I,
) -> usize
    ensures counts { result ≡ count (λ x. to_sweep slots.now x.held) versions.old }
    ensures frees { versions.new ≡ map (swept_entry slots.now) versions.old }
    ensures takes { listed I.Key.Key.order (I.pairs index.new) ≡ keep (λ x. not (sweeps_pair I.Key.Key.order slots.now versions.old x)) (listed I.Key.Key.order (I.pairs index.old)) }
    ensures limit { I.limit index.new ≡ I.limit index.old }
{
    let mut count = 0;
    // By place: a place stands in the index's pairs, and each turn writes the table.
    for place in 0..versions.len() {
        if sweep_at(slots, versions, index, place) {
            count += 1;
        }
    }
    count
}

/// The versions that ended before all transactions are freed and their pairs taken out of the index; how many.
pub fn sweep<I: Index, V: Copy>(
    store: &Store,
    versions: &mut [Entry<Version<I::Key, V>>],
    notes: &[Entry<Note<I::Key>>],
    index: &mut I,
) -> Result<Answer<V>, Refusal>
    ensures { Comes (sweep_rule I.Key.Key.order) (around store.now versions.old notes.now (meaning I.Key.Key.order (I.pairs index.old) (I.limit index.old))) (around store.now versions.new notes.now (meaning I.Key.Key.order (I.pairs index.new) (I.limit index.new))) result }
{
    if !Sizes::of(versions, notes, index).is_in_order(store.opened) {
        return Err(Refusal::Lengths);
    }
    Ok(Answer::Number(sweep_all(&store.slots, versions, index)))
}
