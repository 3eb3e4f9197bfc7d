// Commit, abort and finish.
ghost use Rattle.rules.specs.Checks.{Comes};
ghost use Rattle.std.specs.Prelude.{◌≡◌, Some, nat_lt, not, slice_set};
ghost use Rattle.seeing.specs.declared.Phase.TheVariants.{Committed};
ghost use Rattle.seeing.specs.Phases.{is_over};
ghost use Rattle.rules.specs.Index.{meaning};
ghost use Rattle.rules.specs.Worlds.{with_slots, around};
ghost use Rattle.rules.specs.Slots.{with_phase, release, one_more_commit};
ghost use Rattle.rules.specs.TransactionRules.{commit_rule, abort_rule};
ghost use Rattle.rules.specs.TableRules.{finish_rule};

use index::Index;
use keys::Key;
use rules::{Answer, Entry, Note, Refusal, Store};
use seeing::{Phase, Transaction, Version};
use slots::{abort_one, count_waits, release};
use tables::{Seated, Sizes, free_notes, named, settle_all};

fn is_any(number: usize) -> bool
    ensures { result ≡ nat_lt 0 number }
{
    0 < number
}

// The transaction is committed at the stamp, and nobody waits on it.
fn commit_one(store: &mut Store, one: Seated, stamp: u64)
    ensures { store.new ≡ one_more_commit (with_slots store.old (release one.transaction.name (slice_set store.old.slots one.slot (Some (with_phase (Committed stamp) one.transaction))))) }
{
    store.slots[one.slot] = Some(Transaction {
        phase: Phase::Committed(stamp),
        ..one.transaction
    });
    store.slots = release(store.slots, one.transaction.name);
    store.commits = store.commits.saturating_add(1);
}

/// The transaction is committed, if it waits on nobody.
pub fn commit<I: Index, V: Copy>(
    store: &mut Store,
    versions: &[Entry<Version<I::Key, V>>],
    notes: &[Entry<Note<I::Key>>],
    index: &I,
    transaction: u64,
) -> Result<Answer<V>, Refusal>
    ensures { Comes (λ w. commit_rule w transaction) (around store.old versions.now notes.now (meaning I.Key.Key.order (I.pairs index.now) (I.limit index.now))) (around store.new versions.now notes.now (meaning I.Key.Key.order (I.pairs index.now) (I.limit index.now))) result }
{
    let one = named(store, Sizes::of(versions, notes, index), transaction)?;
    let stamp = one.sound(one.transaction.phase.if_validated())?;
    let waited_on = count_waits(&one.transaction.waits);
    if is_any(waited_on) {
        return Err(Refusal::Waiting(waited_on));
    }
    commit_one(store, one, stamp);
    Ok(Answer::Done)
}

// What abort asks of the phase.
fn may_abort(phase: Phase) -> bool
    ensures { result ≡ not (is_over phase) }
{
    !phase.is_over()
}

/// The transaction is aborted, and those that wait on it are doomed.
pub fn abort<I: Index, V: Copy>(
    store: &mut Store,
    versions: &[Entry<Version<I::Key, V>>],
    notes: &[Entry<Note<I::Key>>],
    index: &I,
    transaction: u64,
) -> Result<Answer<V>, Refusal>
    ensures { Comes (λ w. abort_rule w transaction) (around store.old versions.now notes.now (meaning I.Key.Key.order (I.pairs index.now) (I.limit index.now))) (around store.new versions.now notes.now (meaning I.Key.Key.order (I.pairs index.now) (I.limit index.now))) result }
{
    let one = named(store, Sizes::of(versions, notes, index), transaction)?;
    if !may_abort(one.transaction.phase) {
        return Err(Refusal::Phase);
    }
    abort_one(store, transaction);
    Ok(Answer::Done)
}

// What finish asks of the phase.
fn may_finish(outcome: Phase) -> bool
    ensures { result ≡ is_over outcome }
{
    outcome.is_over()
}

/// The transaction leaves: its notes and its slot are freed, and its name becomes stamps in all versions.
pub fn finish<I: Index, V: Copy>(
    store: &mut Store,
    versions: &mut [Entry<Version<I::Key, V>>],
    notes: &mut [Entry<Note<I::Key>>],
    index: &I,
    transaction: u64,
) -> Result<Answer<V>, Refusal>
    ensures { Comes (λ w. finish_rule w transaction) (around store.old versions.old notes.old (meaning I.Key.Key.order (I.pairs index.now) (I.limit index.now))) (around store.new versions.new notes.new (meaning I.Key.Key.order (I.pairs index.now) (I.limit index.now))) result }
{
    let one = named(store, Sizes::of(versions, notes, index), transaction)?;
    if !may_finish(one.transaction.phase) {
        return Err(Refusal::Phase);
    }
    settle_all(versions, store.last, transaction, one.transaction.phase);
    free_notes(notes, transaction);
    store.slots[one.slot] = None;
    Ok(Answer::Done)
}
