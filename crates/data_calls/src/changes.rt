// Inserting, updating and deleting.
ghost use Rattle.std.specs.Prelude.{◌≡◌, true, false, cond, is_some, Ok, Err};
ghost use Rattle.rules.specs.Worlds.{around};
ghost use Rattle.seeing.specs.declared.End.TheVariants as end;
ghost use Rattle.seeing.specs.Changing.{made_by, not_writable, with_end};
ghost use Rattle.rules.specs.declared.BookCall.TheVariants as book;
ghost use Rattle.rules.specs.declared.Refusal.TheVariants as refusal;
ghost use Rattle.rules.specs.Index.{meaning};
ghost use Rattle.data_calls.specs.Calling.{AnswersAround, AnswersFromAround, call_of};

use crate::answers::{conclude, enter, note_for};
use crate::checks::approach;
use index::Index;
use rules::{Answer, Entry, Note, Noted, Refusal, Store};
use seeing::{End, Slots, Version};
use slots::abort_one;
use tables::replace;
use walks::{Survey, add, add_if};

// Whether an insert sees a version. Where it sees none, one too new is a conflict.
fn is_present<K: Copy, V: Copy>(found: &Survey<K, V>) -> Result<bool, Refusal>
    ensures { result ≡ cond (is_some found.now.seen) (Ok true) (cond found.now.newer (Err refusal.Conflict) (Ok false)) }
{
    match found.seen {
        Some(_) => Ok(true),
        None if found.newer => Err(Refusal::Conflict),
        None => Ok(false),
    }
}

/// "present", or "done" with a new version.
pub fn insert<I: Index, V: Copy>(
    store: &mut Store,
    versions: &mut [Entry<Version<I::Key, V>>],
    notes: &mut [Entry<Note<I::Key>>],
    index: &mut I,
    version_hint: usize,
    note_hint: usize,
    transaction: u64,
    key: I::Key,
    value: V,
) -> Result<Answer<V>, Refusal>
    ensures answers { AnswersAround I.Key.Key.order (around store.old versions.old notes.old (meaning I.Key.Key.order (I.pairs index.old) (I.limit index.old))) (around store.new versions.new notes.new (meaning I.Key.Key.order (I.pairs index.new) (I.limit index.new))) transaction (book.Insert key value) result }
    ensures picks { AnswersFromAround I.Key.Key.order version_hint note_hint (around store.old versions.old notes.old (meaning I.Key.Key.order (I.pairs index.old) (I.limit index.old))) (around store.new versions.new notes.new (meaning I.Key.Key.order (I.pairs index.new) (I.limit index.new))) transaction (book.Insert key value) result }
{
    let (one, found) = approach(store, versions, notes, index, transaction, key, key)?;
    let waits = found.waits;
    match is_present(&found) {
        Ok(true) => {
            let note = note_for(transaction, key, found.seen);
            conclude(store, notes, note_hint, one, note, waits, Answer::Present)
        }
        Err(refusal) => {
            abort_one(store, transaction);
            Err(refusal)
        }
        Ok(false) => {
            let _place = add(versions, index, version_hint, transaction, key, value)?;
            enter(store, one, one.transaction.made, waits);
            Ok(Answer::Done)
        }
    }
}

// Whether the version that a change finds is the transaction's own. Another's that is locked is a conflict.
fn is_own<K: Copy, V: Copy>(
    slots: &Slots,
    name: u64,
    version: &Version<K, V>,
) -> Result<bool, Refusal>
    ensures { result ≡ cond (made_by name version.now) (Ok true) (cond (not_writable slots.now version.now.end) (Err refusal.Conflict) (Ok false)) }
{
    if version.is_made_by(name) {
        Ok(true)
    } else if version.end.is_locked(slots) {
        Err(Refusal::Conflict)
    } else {
        Ok(false)
    }
}

// The version ended by the transaction.
fn ended_by<K: Copy, V: Copy>(name: u64, version: Version<K, V>) -> Version<K, V>
    ensures { result ≡ with_end (end.Owner name) version }
{
    Version {
        end: End::Owner(name),
        ..version
    }
}

// An update with a value, a delete with none.
fn alter<I: Index, V: Copy>(
    store: &mut Store,
    versions: &mut [Entry<Version<I::Key, V>>],
    notes: &mut [Entry<Note<I::Key>>],
    index: &mut I,
    version_hint: usize,
    note_hint: usize,
    transaction: u64,
    key: I::Key,
    new: Option<V>,
) -> Result<Answer<V>, Refusal>
    ensures answers { AnswersAround I.Key.Key.order (around store.old versions.old notes.old (meaning I.Key.Key.order (I.pairs index.old) (I.limit index.old))) (around store.new versions.new notes.new (meaning I.Key.Key.order (I.pairs index.new) (I.limit index.new))) transaction (call_of key new) result }
    ensures picks { AnswersFromAround I.Key.Key.order version_hint note_hint (around store.old versions.old notes.old (meaning I.Key.Key.order (I.pairs index.old) (I.limit index.old))) (around store.new versions.new notes.new (meaning I.Key.Key.order (I.pairs index.new) (I.limit index.new))) transaction (call_of key new) result }
{
    let (one, found) = approach(store, versions, notes, index, transaction, key, key)?;
    let waits = found.waits;
    let Some(met) = found.seen else {
        let note = Some(Noted::Range(key, key));
        return conclude(store, notes, note_hint, one, note, waits, Answer::Absent);
    };
    let (place, version) = met;
    match is_own(&store.slots, transaction, &version) {
        Ok(true) => {
            replace(versions, place, version.altered(transaction, new));
            enter(store, one, one.transaction.made, waits);
            Ok(Answer::Done)
        }
        Err(refusal) => {
            abort_one(store, transaction);
            Err(refusal)
        }
        Ok(false) => {
            let _place = add_if(versions, index, version_hint, transaction, key, new)?;
            replace(versions, place, ended_by(transaction, version));
            enter(store, one, one.transaction.made, waits);
            Ok(Answer::Done)
        }
    }
}

/// "absent", or "done" with the value in place of the old one.
pub fn update<I: Index, V: Copy>(
    store: &mut Store,
    versions: &mut [Entry<Version<I::Key, V>>],
    notes: &mut [Entry<Note<I::Key>>],
    index: &mut I,
    version_hint: usize,
    note_hint: usize,
    transaction: u64,
    key: I::Key,
    value: V,
) -> Result<Answer<V>, Refusal>
    ensures answers { AnswersAround I.Key.Key.order (around store.old versions.old notes.old (meaning I.Key.Key.order (I.pairs index.old) (I.limit index.old))) (around store.new versions.new notes.new (meaning I.Key.Key.order (I.pairs index.new) (I.limit index.new))) transaction (book.Update key value) result }
    ensures picks { AnswersFromAround I.Key.Key.order version_hint note_hint (around store.old versions.old notes.old (meaning I.Key.Key.order (I.pairs index.old) (I.limit index.old))) (around store.new versions.new notes.new (meaning I.Key.Key.order (I.pairs index.new) (I.limit index.new))) transaction (book.Update key value) result }
{
    alter(
        store,
        versions,
        notes,
        index,
        version_hint,
        note_hint,
        transaction,
        key,
        Some(value),
    )
}

/// "absent", or "done" and the row is gone.
pub fn delete<I: Index, V: Copy>(
    store: &mut Store,
    versions: &mut [Entry<Version<I::Key, V>>],
    notes: &mut [Entry<Note<I::Key>>],
    index: &mut I,
    version_hint: usize,
    note_hint: usize,
    transaction: u64,
    key: I::Key,
) -> Result<Answer<V>, Refusal>
    ensures answers { AnswersAround I.Key.Key.order (around store.old versions.old notes.old (meaning I.Key.Key.order (I.pairs index.old) (I.limit index.old))) (around store.new versions.new notes.new (meaning I.Key.Key.order (I.pairs index.new) (I.limit index.new))) transaction (book.Delete key) result }
    ensures picks { AnswersFromAround I.Key.Key.order version_hint note_hint (around store.old versions.old notes.old (meaning I.Key.Key.order (I.pairs index.old) (I.limit index.old))) (around store.new versions.new notes.new (meaning I.Key.Key.order (I.pairs index.new) (I.limit index.new))) transaction (book.Delete key) result }
{
    alter(
        store,
        versions,
        notes,
        index,
        version_hint,
        note_hint,
        transaction,
        key,
        None,
    )
}
