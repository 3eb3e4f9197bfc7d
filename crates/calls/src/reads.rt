// Read and scan.
ghost use Rattle.std.specs.Prelude.{◌≡◌, ℕ};
ghost use Rattle.data_calls.specs.Calling.{world, AnswersFrom, AnswersFromAround};
ghost use Rattle.data_calls.specs.Calling as calling;
ghost use Rattle.rules.specs.declared.Call.TheVariants as call;
ghost use Rattle.rules.specs.declared.BookCall.TheVariants as book;
ghost use Rattle.rules.specs.Index.{meaning};
ghost use Rattle.calls.specs.Performing.{desk, Performs, PerformsAround};
ghost use Rattle.rules.specs.Worlds.{around};
ghost use Rattle.calls.specs.Promises.{AnswersAround, Answers};

use crate::TableStore;
use data_calls::{read, scan};
use index::Index;
use rules::{Answer, Entry, Note, Refusal, Row, Store};
use seeing::Version;

// A read takes no version entry, so that every version hint says the same.
fn read_by<I: Index, V: Copy>(
    store: &mut Store,
    versions: &[Entry<Version<I::Key, V>>],
    notes: &mut [Entry<Note<I::Key>>],
    index: &I,
    note_hint: usize,
    transaction: u64,
    key: I::Key,
) -> Result<Answer<V>, Refusal>
    ensures answers { calling.AnswersAround I.Key.Key.order (around store.old versions.now notes.old (meaning I.Key.Key.order (I.pairs index.now) (I.limit index.now))) (around store.new versions.now notes.new (meaning I.Key.Key.order (I.pairs index.now) (I.limit index.now))) transaction (book.Read key) result }
    ensures picks { (version_hint : ℕ) → AnswersFromAround I.Key.Key.order version_hint note_hint (around store.old versions.now notes.old (meaning I.Key.Key.order (I.pairs index.now) (I.limit index.now))) (around store.new versions.now notes.new (meaning I.Key.Key.order (I.pairs index.now) (I.limit index.now))) transaction (book.Read key) result }
{
    read(store, versions, notes, index, note_hint, transaction, key)
}

// The same of a scan.
fn scan_by<I: Index, V: Copy>(
    store: &mut Store,
    versions: &[Entry<Version<I::Key, V>>],
    notes: &mut [Entry<Note<I::Key>>],
    index: &I,
    note_hint: usize,
    transaction: u64,
    lower: I::Key,
    upper: I::Key,
    rows: &mut [Row<I::Key, V>],
) -> Result<Answer<V>, Refusal>
    ensures answers { calling.Answers I.Key.Key.order (world store.old versions.now notes.old rows.old (meaning I.Key.Key.order (I.pairs index.now) (I.limit index.now))) (world store.new versions.now notes.new rows.new (meaning I.Key.Key.order (I.pairs index.now) (I.limit index.now))) transaction (book.Scan lower upper) result }
    ensures picks { (version_hint : ℕ) → AnswersFrom I.Key.Key.order version_hint note_hint (world store.old versions.now notes.old rows.old (meaning I.Key.Key.order (I.pairs index.now) (I.limit index.now))) (world store.new versions.now notes.new rows.new (meaning I.Key.Key.order (I.pairs index.now) (I.limit index.now))) transaction (book.Scan lower upper) result }
{
    scan(
        store,
        versions,
        notes,
        index,
        note_hint,
        transaction,
        lower,
        upper,
        rows,
    )
}

impl TableStore {
    /// The value of the key, or "absent".
    pub fn read<I: Index, V: Copy>(
        &mut self,
        versions: &[Entry<Version<I::Key, V>>],
        notes: &mut [Entry<Note<I::Key>>],
        index: &I,
        transaction: u64,
        key: I::Key,
    ) -> Result<Answer<V>, Refusal>
        ensures answers { AnswersAround I.Key.Key.order (around self.old.store versions.now notes.old (meaning I.Key.Key.order (I.pairs index.now) (I.limit index.now))) (around self.new.store versions.now notes.new (meaning I.Key.Key.order (I.pairs index.now) (I.limit index.now))) (call.Book transaction (book.Read key)) result }
        ensures exact { PerformsAround I.Key.Key.order (desk self.old versions.now notes.old (meaning I.Key.Key.order (I.pairs index.now) (I.limit index.now))) (desk self.new versions.now notes.new (meaning I.Key.Key.order (I.pairs index.now) (I.limit index.now))) (call.Book transaction (book.Read key)) result }
    {
        self.note_hint = self.note_place(notes, transaction);
        read_by(
            &mut self.store,
            versions,
            notes,
            index,
            self.note_hint,
            transaction,
            key,
        )
    }

    /// The number of the visible rows from lower to upper, which then stand at the front of the row table.
    pub fn scan<I: Index, V: Copy>(
        &mut self,
        versions: &[Entry<Version<I::Key, V>>],
        notes: &mut [Entry<Note<I::Key>>],
        index: &I,
        transaction: u64,
        lower: I::Key,
        upper: I::Key,
        rows: &mut [Row<I::Key, V>],
    ) -> Result<Answer<V>, Refusal>
        ensures answers { Answers I.Key.Key.order (around self.old.store versions.now notes.old (meaning I.Key.Key.order (I.pairs index.now) (I.limit index.now)) rows.old) (around self.new.store versions.now notes.new (meaning I.Key.Key.order (I.pairs index.now) (I.limit index.now)) rows.new) (call.Book transaction (book.Scan lower upper)) result }
        ensures exact { Performs I.Key.Key.order (desk self.old versions.now notes.old (meaning I.Key.Key.order (I.pairs index.now) (I.limit index.now)) rows.old) (desk self.new versions.now notes.new (meaning I.Key.Key.order (I.pairs index.now) (I.limit index.now)) rows.new) (call.Book transaction (book.Scan lower upper)) result }
    {
        self.note_hint = self.note_place(notes, transaction);
        scan_by(
            &mut self.store,
            versions,
            notes,
            index,
            self.note_hint,
            transaction,
            lower,
            upper,
            rows,
        )
    }
}
