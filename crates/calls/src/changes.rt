// Insert, update and delete.
ghost use Rattle.std.specs.Prelude.{◌≡◌};
ghost use Rattle.rules.specs.declared.Call.TheVariants as call;
ghost use Rattle.rules.specs.declared.BookCall.TheVariants as book;
ghost use Rattle.rules.specs.Index.{meaning};
ghost use Rattle.calls.specs.Performing.{desk, PerformsAround};
ghost use Rattle.rules.specs.Worlds.{around};
ghost use Rattle.calls.specs.Promises.{AnswersAround};

use crate::TableStore;
use data_calls::{delete, insert, update};
use index::Index;
use rules::{Answer, Entry, Note, Refusal};
use seeing::Version;

// Insert and update are of one shape, but each names a rule of its own: one function for both would take the call as a parameter.
impl TableStore {
    /// "present", or "done" with a new version.
    pub fn insert<I: Index, V: Copy>(
        &mut self,
        versions: &mut [Entry<Version<I::Key, V>>],
        notes: &mut [Entry<Note<I::Key>>],
        index: &mut I,
        transaction: u64,
        key: I::Key,
        value: V,
    ) -> Result<Answer<V>, Refusal>
        ensures answers { AnswersAround I.Key.Key.order (around self.old.store versions.old notes.old (meaning I.Key.Key.order (I.pairs index.old) (I.limit index.old))) (around self.new.store versions.new notes.new (meaning I.Key.Key.order (I.pairs index.new) (I.limit index.new))) (call.Book transaction (book.Insert key value)) result }
        ensures exact { PerformsAround I.Key.Key.order (desk self.old versions.old notes.old (meaning I.Key.Key.order (I.pairs index.old) (I.limit index.old))) (desk self.new versions.new notes.new (meaning I.Key.Key.order (I.pairs index.new) (I.limit index.new))) (call.Book transaction (book.Insert key value)) result }
    {
        self.note_hint = self.note_place(notes, transaction);
        self.version_hint = self.version_place(versions);
        insert(
            &mut self.store,
            versions,
            notes,
            index,
            self.version_hint,
            self.note_hint,
            transaction,
            key,
            value,
        )
    }

    /// "absent", or "done" with the value in place of the old one.
    pub fn update<I: Index, V: Copy>(
        &mut self,
        versions: &mut [Entry<Version<I::Key, V>>],
        notes: &mut [Entry<Note<I::Key>>],
        index: &mut I,
        transaction: u64,
        key: I::Key,
        value: V,
    ) -> Result<Answer<V>, Refusal>
        ensures answers { AnswersAround I.Key.Key.order (around self.old.store versions.old notes.old (meaning I.Key.Key.order (I.pairs index.old) (I.limit index.old))) (around self.new.store versions.new notes.new (meaning I.Key.Key.order (I.pairs index.new) (I.limit index.new))) (call.Book transaction (book.Update key value)) result }
        ensures exact { PerformsAround I.Key.Key.order (desk self.old versions.old notes.old (meaning I.Key.Key.order (I.pairs index.old) (I.limit index.old))) (desk self.new versions.new notes.new (meaning I.Key.Key.order (I.pairs index.new) (I.limit index.new))) (call.Book transaction (book.Update key value)) result }
    {
        self.note_hint = self.note_place(notes, transaction);
        self.version_hint = self.version_place(versions);
        update(
            &mut self.store,
            versions,
            notes,
            index,
            self.version_hint,
            self.note_hint,
            transaction,
            key,
            value,
        )
    }

    /// "absent", or "done" and the row is gone.
    pub fn delete<I: Index, V: Copy>(
        &mut self,
        versions: &mut [Entry<Version<I::Key, V>>],
        notes: &mut [Entry<Note<I::Key>>],
        index: &mut I,
        transaction: u64,
        key: I::Key,
    ) -> Result<Answer<V>, Refusal>
        ensures answers { AnswersAround I.Key.Key.order (around self.old.store versions.old notes.old (meaning I.Key.Key.order (I.pairs index.old) (I.limit index.old))) (around self.new.store versions.new notes.new (meaning I.Key.Key.order (I.pairs index.new) (I.limit index.new))) (call.Book transaction (book.Delete key)) result }
        ensures exact { PerformsAround I.Key.Key.order (desk self.old versions.old notes.old (meaning I.Key.Key.order (I.pairs index.old) (I.limit index.old))) (desk self.new versions.new notes.new (meaning I.Key.Key.order (I.pairs index.new) (I.limit index.new))) (call.Book transaction (book.Delete key)) result }
    {
        self.note_hint = self.note_place(notes, transaction);
        self.version_hint = self.version_place(versions);
        delete(
            &mut self.store,
            versions,
            notes,
            index,
            self.version_hint,
            self.note_hint,
            transaction,
            key,
        )
    }
}
