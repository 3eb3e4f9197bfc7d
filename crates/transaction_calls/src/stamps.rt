// Begin and prepare: the calls that take a stamp.
ghost use Rattle.std.specs.Prelude.{◌≡◌, ◌+◌, ◌<◌, Some, slice_set};
ghost use Rattle.seeing.specs.declared.Phase.TheVariants.{Preparing};
ghost use Rattle.rules.specs.Index.{meaning};
ghost use Rattle.rules.specs.Worlds.{with_slots, around};
ghost use Rattle.rules.specs.Checks.{Comes};
ghost use Rattle.rules.specs.Slots.{with_stamp, with_phase, fresh};
ghost use Rattle.rules.specs.TransactionRules.{begin_rule, prepare_rule};

use crate::LARGEST_STAMP;
use index::Index;
use keys::Key;
use rules::{Answer, Entry, Note, Refusal, Store};
use seeing::{Level, Phase, Transaction, Version};
use slots::free_slot;
use tables::{Seated, Sizes, active};

// The next stamp, and the new transaction of that name in the slot.
fn seat(store: &mut Store, slot: usize, level: Level) -> u64
    requires { (slot < 64) × (store.old.last < 9223372036854775806) }
    ensures stamp { result ≡ store.old.last + 1 }
    ensures leaves { store.new ≡ with_slots (with_stamp store.old) (slice_set store.old.slots slot (Some (fresh (store.old.last + 1) level))) }
{
    let name = store.last + 1;
    store.last = name;
    store.slots[slot] = Some(Transaction {
        name,
        level,
        phase: Phase::Active,
        doomed: false,
        made: 0,
        waits: [false; 64],
    });
    name
}

/// A new transaction, which takes the next stamp and the lowest free slot.
pub fn begin<I: Index, V: Copy>(
    store: &mut Store,
    versions: &[Entry<Version<I::Key, V>>],
    notes: &[Entry<Note<I::Key>>],
    index: &I,
    level: Level,
) -> Result<Answer<V>, Refusal>
    ensures { Comes (λ w. begin_rule w level) (around store.old versions.now notes.now (meaning I.Key.Key.order (I.pairs index.now) (I.limit index.now))) (around store.new versions.now notes.now (meaning I.Key.Key.order (I.pairs index.now) (I.limit index.now))) result }
{
    if !Sizes::of(versions, notes, index).is_in_order(store.opened) {
        return Err(Refusal::Lengths);
    }
    let Some(slot) = free_slot(&store.slots) else {
        return Err(Refusal::Transactions);
    };
    if LARGEST_STAMP <= store.last {
        return Err(Refusal::LastStamp);
    }
    Ok(Answer::Stamp(seat(store, slot, level)))
}

// The next stamp, the end stamp of the transaction from now on.
fn stamp_end(store: &mut Store, one: Seated) -> u64
    requires { store.old.last < 9223372036854775806 }
    ensures stamp { result ≡ store.old.last + 1 }
    ensures leaves { store.new ≡ with_slots (with_stamp store.old) (slice_set store.old.slots one.slot (Some (with_phase (Preparing (store.old.last + 1)) one.transaction))) }
{
    let stamp = store.last + 1;
    store.last = stamp;
    store.slots[one.slot] = Some(Transaction {
        phase: Phase::Preparing(stamp),
        ..one.transaction
    });
    stamp
}

/// The transaction takes the next stamp as its end stamp.
pub fn prepare<I: Index, V: Copy>(
    store: &mut Store,
    versions: &[Entry<Version<I::Key, V>>],
    notes: &[Entry<Note<I::Key>>],
    index: &I,
    transaction: u64,
) -> Result<Answer<V>, Refusal>
    ensures { Comes (λ w. prepare_rule w transaction) (around store.old versions.now notes.now (meaning I.Key.Key.order (I.pairs index.now) (I.limit index.now))) (around store.new versions.now notes.now (meaning I.Key.Key.order (I.pairs index.now) (I.limit index.now))) result }
{
    let one = active(store, Sizes::of(versions, notes, index), transaction)?;
    if LARGEST_STAMP <= store.last {
        return Err(Refusal::LastStamp);
    }
    Ok(Answer::Stamp(stamp_end(store, one)))
}
