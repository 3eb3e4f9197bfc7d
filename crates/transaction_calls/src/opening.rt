// Open and tally.
ghost use Rattle.std.specs.Prelude.{◌≡◌, Ok, Err, nat_lt, if◌then◌else◌};
ghost use Rattle.rules.specs.declared.Answer.TheVariants as answer;
ghost use Rattle.rules.specs.declared.Refusal.TheVariants as refusal;
ghost use Rattle.rules.specs.Worlds.{around};
ghost use Rattle.rules.specs.Index.{meaning};
ghost use Rattle.rules.specs.Checks.{largest, still_allowed, Comes};
ghost use Rattle.rules.specs.TransactionRules.{tally_rule};
ghost use Rattle.rules.specs.TableRules.{opened_store, open_rule};

use crate::LARGEST_STAMP;
use index::Index;
use keys::Key;
use rules::{Answer, Entry, Lengths, Note, Refusal, Store};
use seeing::Version;
use tables::{Sizes, free_all};

fn is_too_high(stamp: u64) -> bool
    ensures { result ≡ nat_lt largest stamp }
{
    LARGEST_STAMP < stamp
}

// A store just opened, with tables of those lengths.
fn start(versions: usize, notes: usize, stamp: u64) -> Store
    ensures { result ≡ opened_store versions notes stamp }
{
    Store {
        opened: Some(Lengths { versions, notes }),
        last: stamp,
        commits: 0,
        aborts: 0,
        slots: [None; 64],
    }
}

/// The store begins anew at the stamp: no transactions, all entries of both tables free, the index empty.
pub fn open<I: Index, V: Copy>(
    store: &mut Store,
    versions: &mut [Entry<Version<I::Key, V>>],
    notes: &mut [Entry<Note<I::Key>>],
    index: &mut I,
    stamp: u64,
) -> Result<Answer<V>, Refusal>
    ensures { Comes (λ w. open_rule I.Key.Key.order w stamp) (around store.old versions.old notes.old (meaning I.Key.Key.order (I.pairs index.old) (I.limit index.old))) (around store.new versions.new notes.new (meaning I.Key.Key.order (I.pairs index.new) (I.limit index.new))) result }
{
    if !Sizes::of(versions, notes, index).is_allowed() {
        return Err(Refusal::Lengths);
    }
    if is_too_high(stamp) {
        return Err(Refusal::OpeningStamp);
    }
    *store = start(versions.len(), notes.len(), stamp);
    free_all(versions);
    free_all(notes);
    index.clear();
    Ok(Answer::Done)
}

fn counts<V: Copy>(store: &Store, sizes: Sizes) -> Result<Answer<V>, Refusal>
    ensures { result ≡ (if still_allowed store.now.opened sizes.versions sizes.notes sizes.capacity then Ok (answer.Tallied store.now.commits store.now.aborts) else Err refusal.Lengths) }
{
    if !sizes.is_in_order(store.opened) {
        return Err(Refusal::Lengths);
    }
    Ok(Answer::Tallied(store.commits, store.aborts))
}

/// The numbers of commits and of aborts since opening.
pub fn tally<I: Index, V: Copy>(
    store: &Store,
    versions: &[Entry<Version<I::Key, V>>],
    notes: &[Entry<Note<I::Key>>],
    index: &I,
) -> Result<Answer<V>, Refusal>
    ensures { Comes tally_rule (around store.now versions.now notes.now (meaning I.Key.Key.order (I.pairs index.now) (I.limit index.now))) (around store.now versions.now notes.now (meaning I.Key.Key.order (I.pairs index.now) (I.limit index.now))) result }
{
    counts(store, Sizes::of(versions, notes, index))
}
