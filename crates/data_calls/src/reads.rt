// Reading one key.
ghost use Rattle.rules.specs.Worlds.{around};
ghost use Rattle.rules.specs.declared.BookCall.TheVariants as book;
ghost use Rattle.rules.specs.Index.{meaning};
ghost use Rattle.data_calls.specs.Calling.{AnswersAround, AnswersFromAround};

use crate::answers::{conclude, note_for, value_for};
use crate::checks::approach;
use index::Index;
use rules::{Answer, Entry, Note, Refusal, Store};
use seeing::Version;

/// The value of the key, or "absent".
pub fn read<I: Index, V: Copy>(
    store: &mut Store,
    versions: &[Entry<Version<I::Key, V>>],
    notes: &mut [Entry<Note<I::Key>>],
    index: &I,
    note_hint: usize,
    transaction: u64,
    key: I::Key,
) -> Result<Answer<V>, Refusal>
    ensures answers { AnswersAround I.Key.Key.order (around store.old versions.now notes.old (meaning I.Key.Key.order (I.pairs index.now) (I.limit index.now))) (around store.new versions.now notes.new (meaning I.Key.Key.order (I.pairs index.now) (I.limit index.now))) transaction (book.Read key) result }
    ensures picks { AnswersFromAround I.Key.Key.order 0 note_hint (around store.old versions.now notes.old (meaning I.Key.Key.order (I.pairs index.now) (I.limit index.now))) (around store.new versions.now notes.new (meaning I.Key.Key.order (I.pairs index.now) (I.limit index.now))) transaction (book.Read key) result }
{
    let (one, found) = approach(store, versions, notes, index, transaction, key, key)?;
    let note = note_for(transaction, key, found.seen);
    let value = value_for(found.seen);
    conclude(store, notes, note_hint, one, note, found.waits, value)
}
