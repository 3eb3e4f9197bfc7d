// An abort: the transaction named, and all that wait on it, directly or through others.
ghost use Rattle.std.specs.Prelude.{◌≡◌, ◌||◌};
ghost use Rattle.rules.specs.Aborting.{meets, waits_on, spread, named_marks, dragged, after_abort, doom_marked, abort_store};

use rules::Store;
use seeing::{Phase, Slots, Transaction};
use std::array;

// A mark in both.
fn have_common(xs: &[bool; 64], ys: &[bool; 64]) -> bool
    ensures { result ≡ meets xs.now ys.now }
{
    xs.iter().zip(ys).any(|(x, y)| *x && *y)
}

// It is marked, or waits on a marked one.
fn is_dragged(marked: bool, slot: &Option<Transaction>, marks: &[bool; 64]) -> bool
    ensures { result ≡ (marked || waits_on marks.now slot.now) }
{
    marked || slot.is_some_and(|t| have_common(&t.waits, marks))
}

// Whoever waits on a marked one is marked too.
fn spread_once(slots: &Slots, marks: [bool; 64]) -> [bool; 64]
    ensures { result ≡ spread slots.now marks }
{
    array::from_fn(|i| is_dragged(marks[i], &slots[i], &marks))
}

// The mark of the one named.
fn mark_named(slots: &Slots, name: u64) -> [bool; 64]
    ensures { result ≡ named_marks slots.now name }
{
    array::from_fn(|i| slots[i].is_some_and(|t| t.name == name))
}

// The marks of the one named and of all that wait on it, directly or through others.
fn mark_dragged(slots: &Slots, name: u64) -> [bool; 64]
    ensures { result ≡ dragged slots.now name }
{
    let mut marks = mark_named(slots, name);
    // Tried: `fold`, whose closure tells the proof nothing of the array; and `marks = spread_once(..)`, which is not covered.
    for _i in 0..64usize {
        let next = spread_once(slots, marks);
        marks = next;
    }
    marks
}

// What becomes of a transaction where the one named aborts.
fn fate(slot: Option<Transaction>, marked: bool, name: u64) -> Option<Transaction>
    ensures { result ≡ after_abort name marked slot }
{
    match slot {
        Some(t) if t.name == name => Some(Transaction {
            phase: Phase::Aborted,
            waits: [false; 64],
            ..t
        }),
        Some(t) if marked => Some(Transaction {
            doomed: true,
            waits: [false; 64],
            ..t
        }),
        other => other,
    }
}

fn doom_slots(slots: Slots, marks: &[bool; 64], name: u64) -> Slots
    ensures { result ≡ doom_marked name slots marks.now }
{
    array::from_fn(|i| fate(slots[i], marks[i], name))
}

/// The transaction is aborted, and those that wait on it are doomed.
pub fn abort_one(store: &mut Store, name: u64)
    ensures { store.new ≡ abort_store name store.old }
{
    let marks = mark_dragged(&store.slots, name);
    store.slots = doom_slots(store.slots, &marks, name);
    store.aborts = store.aborts.saturating_add(1);
}
