// Any of the calls as a value, with the law over runs.
ghost use Rattle.rules.specs.Worlds.{around};
ghost use Rattle.std.specs.Prelude.{◌≡◌};
ghost use Rattle.rules.specs.Index.{meaning};
ghost use Rattle.calls.specs.Promises.{Answers, GoesOn, Begins};
ghost use Rattle.calls.specs.Performing.{desk, Performs};

use crate::TableStore;
use index::Index;
use rules::{Answer, BookCall, Call, Entry, Note, Refusal, Row};
use seeing::Version;

impl TableStore {
    // A call on rows.
    fn ask<I: Index, V: Copy>(
        &mut self,
        versions: &mut [Entry<Version<I::Key, V>>],
        notes: &mut [Entry<Note<I::Key>>],
        index: &mut I,
        rows: &mut [Row<I::Key, V>],
        transaction: u64,
        call: BookCall<I::Key, V>,
    ) -> Result<Answer<V>, Refusal>
        ensures { Performs I.Key.Key.order (desk self.old versions.old notes.old (meaning I.Key.Key.order (I.pairs index.old) (I.limit index.old)) rows.old) (desk self.new versions.new notes.new (meaning I.Key.Key.order (I.pairs index.new) (I.limit index.new)) rows.new) (Call.Book transaction call) result }
    {
        match call {
            BookCall::Read(key) => self.read(versions, notes, index, transaction, key),
            BookCall::Scan(lower, upper) => self.scan(
                versions,
                notes,
                index,
                transaction,
                lower,
                upper,
                rows,
            ),
            BookCall::Insert(key, value) => self.insert(
                versions,
                notes,
                index,
                transaction,
                key,
                value,
            ),
            BookCall::Update(key, value) => self.update(
                versions,
                notes,
                index,
                transaction,
                key,
                value,
            ),
            BookCall::Delete(key) => self.delete(versions, notes, index, transaction, key),
        }
    }

    // Any call.
    fn carry_out<I: Index, V: Copy>(
        &mut self,
        versions: &mut [Entry<Version<I::Key, V>>],
        notes: &mut [Entry<Note<I::Key>>],
        index: &mut I,
        rows: &mut [Row<I::Key, V>],
        call: Call<I::Key, V>,
    ) -> Result<Answer<V>, Refusal>
        ensures { Performs I.Key.Key.order (desk self.old versions.old notes.old (meaning I.Key.Key.order (I.pairs index.old) (I.limit index.old)) rows.old) (desk self.new versions.new notes.new (meaning I.Key.Key.order (I.pairs index.new) (I.limit index.new)) rows.new) call result }
    {
        match call {
            Call::Open(stamp) => self.open(versions, notes, index, stamp),
            Call::Begin(level) => self.begin(versions, notes, index, level),
            Call::Book(by, asked) => self.ask(versions, notes, index, rows, by, asked),
            Call::Prepare(transaction) => self.prepare(versions, notes, index, transaction),
            Call::Validate(transaction) => self.validate(versions, notes, index, transaction),
            Call::Commit(transaction) => self.commit(versions, notes, index, transaction),
            Call::Abort(transaction) => self.abort(versions, notes, index, transaction),
            Call::Finish(transaction) => self.finish(versions, notes, index, transaction),
            Call::Sweep => self.sweep(versions, notes, index),
            Call::Tally => self.tally(versions, notes, index),
        }
    }

    /// Carries out any call, exactly as `performed` says: it answers as the rules say, every run that led here goes on by it, and the law holds after it.
    pub fn perform<I: Index, V: Copy>(
        &mut self,
        versions: &mut [Entry<Version<I::Key, V>>],
        notes: &mut [Entry<Note<I::Key>>],
        index: &mut I,
        rows: &mut [Row<I::Key, V>],
        call: Call<I::Key, V>,
    ) -> Result<Answer<V>, Refusal>
        ensures exact { Performs I.Key.Key.order (desk self.old versions.old notes.old (meaning I.Key.Key.order (I.pairs index.old) (I.limit index.old)) rows.old) (desk self.new versions.new notes.new (meaning I.Key.Key.order (I.pairs index.new) (I.limit index.new)) rows.new) call result }
        ensures answers { Answers I.Key.Key.order (around self.old.store versions.old notes.old (meaning I.Key.Key.order (I.pairs index.old) (I.limit index.old)) rows.old) (around self.new.store versions.new notes.new (meaning I.Key.Key.order (I.pairs index.new) (I.limit index.new)) rows.new) call result }
        ensures law { GoesOn I.Key.Key.order (around self.old.store versions.old notes.old (meaning I.Key.Key.order (I.pairs index.old) (I.limit index.old)) rows.old) (around self.new.store versions.new notes.new (meaning I.Key.Key.order (I.pairs index.new) (I.limit index.new)) rows.new) call result }
        ensures opens { Begins I.Key.Key.order (around self.new.store versions.new notes.new (meaning I.Key.Key.order (I.pairs index.new) (I.limit index.new)) rows.new) call result }
    {
        self.carry_out(versions, notes, index, rows, call)
    }
}
