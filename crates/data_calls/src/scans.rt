// Reading the keys of a range.
ghost use Rattle.std.specs.Prelude.{◌≡◌};
ghost use Rattle.rules.specs.declared.BookCall.TheVariants as book;
ghost use Rattle.rules.specs.Keys.{above};
ghost use Rattle.rules.specs.Index.{meaning};
ghost use Rattle.data_calls.specs.Calling.{world, Answers, AnswersFrom};

use crate::answers::enter;
use index::Index;
use keys::Key;
use rules::{Answer, Entry, Note, Noted, Refusal, Row, Store};
use seeing::Version;
use tables::{Sizes, active, make_note};
use walks::Search;

fn is_above<K: Key>(lower: K, upper: K) -> bool
    ensures { result ≡ above K.Key.order lower upper }
{
    lower.compare(&upper).is_gt()
}

/// The number of the visible rows from lower to upper, which stand at the front of the row table then.
pub fn scan<I: Index, V: Copy>(
    store: &mut Store,
    versions: &[Entry<Version<I::Key, V>>],
    notes: &mut [Entry<Note<I::Key>>],
    index: &I,
    note_hint: usize,
    transaction: u64,
    lower: I::Key,
    upper: I::Key,
    rows: &mut [Row<I::Key, V>],
) -> Result<Answer<V>, Refusal>
    ensures answers { Answers I.Key.Key.order (world store.old versions.now notes.old rows.old (meaning I.Key.Key.order (I.pairs index.now) (I.limit index.now))) (world store.new versions.now notes.new rows.new (meaning I.Key.Key.order (I.pairs index.now) (I.limit index.now))) transaction (book.Scan lower upper) result }
    ensures picks { AnswersFrom I.Key.Key.order 0 note_hint (world store.old versions.now notes.old rows.old (meaning I.Key.Key.order (I.pairs index.now) (I.limit index.now))) (world store.new versions.now notes.new rows.new (meaning I.Key.Key.order (I.pairs index.now) (I.limit index.now))) transaction (book.Scan lower upper) result }
{
    let one = active(store, Sizes::of(versions, notes, index), transaction)?;
    if is_above(lower, upper) {
        return Err(Refusal::Keys);
    }
    let search = Search {
        slots: &store.slots,
        versions,
        index,
        name: transaction,
        lower,
        upper,
    };
    let found = search.survey(one.transaction.waits)?;
    search.count_rows(rows.len())?;
    let note = Some(Noted::Range(lower, upper));
    let made = make_note(notes, note_hint, transaction, one.transaction, note)?;
    let written = search.write_rows(rows)?;
    enter(store, one, made, found.waits);
    Ok(Answer::Number(written))
}
