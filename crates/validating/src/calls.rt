// The call validate.
ghost use Rattle.rules.specs.Checks.{Comes};
ghost use Rattle.rules.specs.Worlds.{around};
ghost use Rattle.std.specs.Prelude.{◌≡◌, if◌then◌else◌, Some, Ok};
ghost use Rattle.seeing.specs.Phases.{is_serializable};
ghost use Rattle.rules.specs.Index.{meaning};
ghost use Rattle.rules.specs.Validating.{tests_for, test_all, validate_rule};
ghost use Rattle.validating.specs.Concluding.{concluded, answer_to};

use crate::checks::test_notes;
use index::Index;
use rules::{Answer, Entry, Note, Refusal, Store};
use seeing::{Phase, Slots, Transaction, Version};
use slots::abort_one;
use tables::{Seated, Sizes, named};

// What the tests of the transaction come to; at the level snapshot there are none.
fn verdict_on<I: Index, V: Copy>(
    slots: &Slots,
    versions: &[Entry<Version<I::Key, V>>],
    notes: &[Entry<Note<I::Key>>],
    index: &I,
    t: &Transaction,
    end: u64,
) -> Result<Option<[bool; 64]>, Refusal>
    ensures { result ≡ (if is_serializable t.now.level then test_all I.Key.Key.order slots.now versions.now t.now.name end (tests_for I.Key.Key.order (meaning I.Key.Key.order (I.pairs index.now) (I.limit index.now)) t.now.name notes.now) t.now.waits else Ok (Some t.now.waits)) }
{
    if !t.level.is_serializable() {
        return Ok(Some(t.waits));
    }
    test_notes(slots, versions, notes, index, t.name, end, t.waits)
}

// The transaction is validated or aborted.
fn conclude<V: Copy>(
    store: &mut Store,
    one: Seated,
    end: u64,
    verdict: Option<[bool; 64]>,
) -> Result<Answer<V>, Refusal>
    ensures leaves { store.new ≡ concluded one.slot one.transaction end verdict store.old }
    ensures answers { result ≡ answer_to verdict }
{
    match verdict {
        Some(waits) => {
            store.slots[one.slot] = Some(Transaction {
                phase: Phase::Validated(end),
                waits,
                ..one.transaction
            });
            Ok(Answer::Done)
        }
        None => {
            abort_one(store, one.transaction.name);
            Err(Refusal::Validation)
        }
    }
}

/// A preparing transaction is validated, if what its notes cover is at its end stamp as it found it; else it is aborted.
pub fn validate<I: Index, V: Copy>(
    store: &mut Store,
    versions: &[Entry<Version<I::Key, V>>],
    notes: &[Entry<Note<I::Key>>],
    index: &I,
    transaction: u64,
) -> Result<Answer<V>, Refusal>
    ensures { Comes (λ w. validate_rule I.Key.Key.order w transaction) (around store.old versions.now notes.now (meaning I.Key.Key.order (I.pairs index.now) (I.limit index.now))) (around store.new versions.now notes.now (meaning I.Key.Key.order (I.pairs index.now) (I.limit index.now))) result }
{
    let one = named(store, Sizes::of(versions, notes, index), transaction)?;
    let end = one.sound(one.transaction.phase.if_preparing())?;
    let verdict = verdict_on(&store.slots, versions, notes, index, &one.transaction, end)?;
    conclude(store, one, end, verdict)
}
