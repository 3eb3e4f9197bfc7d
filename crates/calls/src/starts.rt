// Open, begin, prepare and tally.
ghost use Rattle.std.specs.Prelude.{◌≡◌};
ghost use Rattle.rules.specs.declared.Call.TheVariants as call;
ghost use Rattle.rules.specs.Index.{meaning};
ghost use Rattle.calls.specs.Performing.{desk, PerformsAround};
ghost use Rattle.rules.specs.Worlds.{around};
ghost use Rattle.calls.specs.Promises.{AnswersAround};

use crate::TableStore;
use index::Index;
use rules::{Answer, Entry, Note, Refusal};
use seeing::{Level, Version};
use transaction_calls::{begin, open, prepare, tally};

impl TableStore {
    /// All entries are freed, the transactions and the index are gone, and stamps go on from the one given.
    pub fn open<I: Index, V: Copy>(
        &mut self,
        versions: &mut [Entry<Version<I::Key, V>>],
        notes: &mut [Entry<Note<I::Key>>],
        index: &mut I,
        stamp: u64,
    ) -> Result<Answer<V>, Refusal>
        ensures answers { AnswersAround I.Key.Key.order (around self.old.store versions.old notes.old (meaning I.Key.Key.order (I.pairs index.old) (I.limit index.old))) (around self.new.store versions.new notes.new (meaning I.Key.Key.order (I.pairs index.new) (I.limit index.new))) (call.Open stamp) result }
        ensures exact { PerformsAround I.Key.Key.order (desk self.old versions.old notes.old (meaning I.Key.Key.order (I.pairs index.old) (I.limit index.old))) (desk self.new versions.new notes.new (meaning I.Key.Key.order (I.pairs index.new) (I.limit index.new))) (call.Open stamp) result }
    {
        self.version_hint = 0;
        self.note_hint = 0;
        open(&mut self.store, versions, notes, index, stamp)
    }

    /// The stamp that names the new transaction.
    pub fn begin<I: Index, V: Copy>(
        &mut self,
        versions: &[Entry<Version<I::Key, V>>],
        notes: &[Entry<Note<I::Key>>],
        index: &I,
        level: Level,
    ) -> Result<Answer<V>, Refusal>
        ensures answers { AnswersAround I.Key.Key.order (around self.old.store versions.now notes.now (meaning I.Key.Key.order (I.pairs index.now) (I.limit index.now))) (around self.new.store versions.now notes.now (meaning I.Key.Key.order (I.pairs index.now) (I.limit index.now))) (call.Begin level) result }
        ensures exact { PerformsAround I.Key.Key.order (desk self.old versions.now notes.now (meaning I.Key.Key.order (I.pairs index.now) (I.limit index.now))) (desk self.new versions.now notes.now (meaning I.Key.Key.order (I.pairs index.now) (I.limit index.now))) (call.Begin level) result }
    {
        begin(&mut self.store, versions, notes, index, level)
    }

    /// The end stamp of the transaction.
    pub fn prepare<I: Index, V: Copy>(
        &mut self,
        versions: &[Entry<Version<I::Key, V>>],
        notes: &[Entry<Note<I::Key>>],
        index: &I,
        transaction: u64,
    ) -> Result<Answer<V>, Refusal>
        ensures answers { AnswersAround I.Key.Key.order (around self.old.store versions.now notes.now (meaning I.Key.Key.order (I.pairs index.now) (I.limit index.now))) (around self.new.store versions.now notes.now (meaning I.Key.Key.order (I.pairs index.now) (I.limit index.now))) (call.Prepare transaction) result }
        ensures exact { PerformsAround I.Key.Key.order (desk self.old versions.now notes.now (meaning I.Key.Key.order (I.pairs index.now) (I.limit index.now))) (desk self.new versions.now notes.now (meaning I.Key.Key.order (I.pairs index.now) (I.limit index.now))) (call.Prepare transaction) result }
    {
        prepare(&mut self.store, versions, notes, index, transaction)
    }

    /// How many commits and aborts there were since opening.
    pub fn tally<I: Index, V: Copy>(
        &self,
        versions: &[Entry<Version<I::Key, V>>],
        notes: &[Entry<Note<I::Key>>],
        index: &I,
    ) -> Result<Answer<V>, Refusal>
        ensures answers { AnswersAround I.Key.Key.order (around self.now.store versions.now notes.now (meaning I.Key.Key.order (I.pairs index.now) (I.limit index.now))) (around self.now.store versions.now notes.now (meaning I.Key.Key.order (I.pairs index.now) (I.limit index.now))) call.Tally result }
        ensures exact { PerformsAround I.Key.Key.order (desk self.now versions.now notes.now (meaning I.Key.Key.order (I.pairs index.now) (I.limit index.now))) (desk self.now versions.now notes.now (meaning I.Key.Key.order (I.pairs index.now) (I.limit index.now))) call.Tally result }
    {
        tally(&self.store, versions, notes, index)
    }
}
