// The transaction that a call names, and what it finds of some keys.
ghost use Rattle.std.specs.Prelude.{◌≡◌, length};
ghost use Rattle.tables.specs.Naming.{through};
ghost use Rattle.data_calls.specs.Calling.{approached};

use index::Index;
use rules::{Entry, Note, Refusal, Store};
use seeing::Version;
use tables::{Seated, Sizes, active};
use walks::{Search, Survey};

/// The transaction that a call names, and what it finds from lower to upper.
pub(crate) fn approach<I: Index, V: Copy>(
    store: &Store,
    versions: &[Entry<Version<I::Key, V>>],
    notes: &[Entry<Note<I::Key>>],
    index: &I,
    name: u64,
    lower: I::Key,
    upper: I::Key,
) -> Result<(Seated, Survey<I::Key, V>), Refusal>
    ensures { through (λ x. (x.0.slot, x.0.transaction, x.1)) result ≡ approached I.Key.Key.order store.now versions.now (length notes.now) (I.pairs index.now) (I.limit index.now) name lower upper }
{
    let one = active(store, Sizes::of(versions, notes, index), name)?;
    let search = Search {
        slots: &store.slots,
        versions,
        index,
        name,
        lower,
        upper,
    };
    let found = search.survey(one.transaction.waits)?;
    Ok((one, found))
}
