// Validate, commit, abort, finish and sweep.
ghost use Rattle.std.specs.Prelude.{◌≡◌};
ghost use Rattle.rules.specs.declared.Call.TheVariants as call;
ghost use Rattle.rules.specs.Index.{meaning};
ghost use Rattle.calls.specs.Performing.{desk, PerformsAround};
ghost use Rattle.rules.specs.Worlds.{around};
ghost use Rattle.calls.specs.Promises.{AnswersAround};

use crate::TableStore;
use index::Index;
use rules::{Answer, Entry, Note, Refusal};
use seeing::Version;
use transaction_calls::{abort, commit, finish, sweep};
use validating::validate;

impl TableStore {
    /// The transaction is validated if it finds again what it noted.
    pub fn validate<I: Index, V: Copy>(
        &mut self,
        versions: &[Entry<Version<I::Key, V>>],
        notes: &[Entry<Note<I::Key>>],
        index: &I,
        transaction: u64,
    ) -> Result<Answer<V>, Refusal>
        ensures answers { AnswersAround I.Key.Key.order (around self.old.store versions.now notes.now (meaning I.Key.Key.order (I.pairs index.now) (I.limit index.now))) (around self.new.store versions.now notes.now (meaning I.Key.Key.order (I.pairs index.now) (I.limit index.now))) (call.Validate transaction) result }
        ensures exact { PerformsAround I.Key.Key.order (desk self.old versions.now notes.now (meaning I.Key.Key.order (I.pairs index.now) (I.limit index.now))) (desk self.new versions.now notes.now (meaning I.Key.Key.order (I.pairs index.now) (I.limit index.now))) (call.Validate transaction) result }
    {
        validate(&mut self.store, versions, notes, index, transaction)
    }

    /// The transaction is committed, and nobody waits on it any longer.
    pub fn commit<I: Index, V: Copy>(
        &mut self,
        versions: &[Entry<Version<I::Key, V>>],
        notes: &[Entry<Note<I::Key>>],
        index: &I,
        transaction: u64,
    ) -> Result<Answer<V>, Refusal>
        ensures answers { AnswersAround I.Key.Key.order (around self.old.store versions.now notes.now (meaning I.Key.Key.order (I.pairs index.now) (I.limit index.now))) (around self.new.store versions.now notes.now (meaning I.Key.Key.order (I.pairs index.now) (I.limit index.now))) (call.Commit transaction) result }
        ensures exact { PerformsAround I.Key.Key.order (desk self.old versions.now notes.now (meaning I.Key.Key.order (I.pairs index.now) (I.limit index.now))) (desk self.new versions.now notes.now (meaning I.Key.Key.order (I.pairs index.now) (I.limit index.now))) (call.Commit transaction) result }
    {
        commit(&mut self.store, versions, notes, index, transaction)
    }

    /// The transaction is aborted, and those that wait on it are doomed.
    pub fn abort<I: Index, V: Copy>(
        &mut self,
        versions: &[Entry<Version<I::Key, V>>],
        notes: &[Entry<Note<I::Key>>],
        index: &I,
        transaction: u64,
    ) -> Result<Answer<V>, Refusal>
        ensures answers { AnswersAround I.Key.Key.order (around self.old.store versions.now notes.now (meaning I.Key.Key.order (I.pairs index.now) (I.limit index.now))) (around self.new.store versions.now notes.now (meaning I.Key.Key.order (I.pairs index.now) (I.limit index.now))) (call.Abort transaction) result }
        ensures exact { PerformsAround I.Key.Key.order (desk self.old versions.now notes.now (meaning I.Key.Key.order (I.pairs index.now) (I.limit index.now))) (desk self.new versions.now notes.now (meaning I.Key.Key.order (I.pairs index.now) (I.limit index.now))) (call.Abort transaction) result }
    {
        abort(&mut self.store, versions, notes, index, transaction)
    }

    /// The transaction leaves: its notes and its slot are freed, and its name becomes stamps.
    pub fn finish<I: Index, V: Copy>(
        &mut self,
        versions: &mut [Entry<Version<I::Key, V>>],
        notes: &mut [Entry<Note<I::Key>>],
        index: &I,
        transaction: u64,
    ) -> Result<Answer<V>, Refusal>
        ensures answers { AnswersAround I.Key.Key.order (around self.old.store versions.old notes.old (meaning I.Key.Key.order (I.pairs index.now) (I.limit index.now))) (around self.new.store versions.new notes.new (meaning I.Key.Key.order (I.pairs index.now) (I.limit index.now))) (call.Finish transaction) result }
        ensures exact { PerformsAround I.Key.Key.order (desk self.old versions.old notes.old (meaning I.Key.Key.order (I.pairs index.now) (I.limit index.now))) (desk self.new versions.new notes.new (meaning I.Key.Key.order (I.pairs index.now) (I.limit index.now))) (call.Finish transaction) result }
    {
        finish(&mut self.store, versions, notes, index, transaction)
    }

    /// How many versions were freed that nobody can see any longer.
    pub fn sweep<I: Index, V: Copy>(
        &self,
        versions: &mut [Entry<Version<I::Key, V>>],
        notes: &[Entry<Note<I::Key>>],
        index: &mut I,
    ) -> Result<Answer<V>, Refusal>
        ensures answers { AnswersAround I.Key.Key.order (around self.now.store versions.old notes.now (meaning I.Key.Key.order (I.pairs index.old) (I.limit index.old))) (around self.now.store versions.new notes.now (meaning I.Key.Key.order (I.pairs index.new) (I.limit index.new))) call.Sweep result }
        ensures exact { PerformsAround I.Key.Key.order (desk self.now versions.old notes.now (meaning I.Key.Key.order (I.pairs index.old) (I.limit index.old))) (desk self.now versions.new notes.now (meaning I.Key.Key.order (I.pairs index.new) (I.limit index.new))) call.Sweep result }
    {
        sweep(&self.store, versions, notes, index)
    }
}
