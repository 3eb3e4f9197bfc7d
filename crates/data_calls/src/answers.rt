// The answer of a call: the note is made and the waits are entered.
ghost use Rattle.std.specs.Prelude.{◌≡◌, Some, slice_set};
ghost use Rattle.rules.specs.Worlds.{with_slots};
ghost use Rattle.rules.specs.Slots.{answered};
ghost use Rattle.rules.specs.BookRules.{note_of, value_of};
ghost use Rattle.tables.specs.Places.{pick};
ghost use Rattle.tables.specs.Steps.{Gives};
ghost use Rattle.data_calls.specs.Calling.{concluding};

use rules::{Answer, Entry, Note, Noted, Refusal, Store};
use seeing::{Transaction, Version};
use tables::{Seated, make_note};

/// What a call notes of the key: the version seen, unless it is the transaction's own, or that there is none.
pub(crate) fn note_for<K: Copy, V: Copy>(
    name: u64,
    key: K,
    seen: Option<(usize, Version<K, V>)>,
) -> Option<Noted<K>>
    ensures { result ≡ note_of name key seen }
{
    match seen {
        None => Some(Noted::Range(key, key)),
        Some((_, version)) if version.is_made_by(name) => None,
        Some((place, version)) => Some(Noted::Version(version.key, place)),
    }
}

/// The answer of a read.
pub(crate) fn value_for<K: Copy, V: Copy>(seen: Option<(usize, Version<K, V>)>) -> Answer<V>
    ensures { result ≡ value_of seen }
{
    seen.map_or(Answer::Absent, |(_, version)| Answer::Value(version.value))
}

/// The transaction has its answer: so many notes, and those waits.
pub(crate) fn enter(store: &mut Store, one: Seated, made: u64, waits: [bool; 64])
    ensures { store.new ≡ with_slots store.old (slice_set store.old.slots one.slot (Some (answered made waits one.transaction))) }
{
    store.slots[one.slot] = Some(Transaction {
        made,
        waits,
        ..one.transaction
    });
}

/// The call answers: the note is made and the waits are entered.
pub(crate) fn conclude<K: Copy, V: Copy>(
    store: &mut Store,
    notes: &mut [Entry<Note<K>>],
    hint: usize,
    one: Seated,
    what: Option<Noted<K>>,
    waits: [bool; 64],
    answer: Answer<V>,
) -> Result<Answer<V>, Refusal>
    ensures { Gives (concluding (pick hint notes.old) one.transaction.name one.slot one.transaction what waits answer (store.old, notes.old)) (store.old, notes.old) (store.new, notes.new) result }
{
    let made = make_note(notes, hint, one.transaction.name, one.transaction, what)?;
    enter(store, one, made, waits);
    Ok(answer)
}
