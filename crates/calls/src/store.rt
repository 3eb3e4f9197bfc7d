// The store and where it looks for free entries.
ghost use Rattle.std.specs.Prelude.{◌≡◌};
ghost use Rattle.tables.specs.Places.{pick};
ghost use Rattle.calls.specs.Promises.{never_opened};
ghost use Rattle.calls.specs.Performing.{new_store, version_place, note_place, note_place_for};

use rules::{Entry, Store};
use seeing::{Transaction, find};
use tables::free_place;

/// A store. The caller keeps its version table, its note table and its index, and lends them to each call.
/// The hints say where the search for a free entry begins.
// Tables and index are parameters of their own, slices that are shared where a call only reads: a struct that lends
// all of them would borrow all of them for writing.
#[derive(Clone, Copy)]
pub struct TableStore {
    pub(crate) store: Store,
    pub(crate) version_hint: usize,
    pub(crate) note_hint: usize,
}

// The free place found from the hint, or 0.
fn place_from<T: Copy>(table: &[Entry<T>], hint: usize) -> usize
    ensures { result ≡ pick hint table.now }
{
    free_place(table, hint).unwrap_or(0)
}

// The same for a transaction that makes notes; for any other the hint.
fn note_place_for<T: Copy>(
    found: Option<(usize, Transaction)>,
    hint: usize,
    notes: &[Entry<T>],
) -> usize
    ensures { result ≡ note_place_for found hint notes.now }
{
    match found {
        Some((_, t)) if t.level.is_serializable() => place_from(notes, hint),
        _ => hint,
    }
}

impl TableStore {
    /// A store that was never opened.
    pub fn new() -> TableStore
        ensures unopened { result.store ≡ never_opened }
        ensures whole { result ≡ new_store }
    {
        TableStore {
            store: Store {
                opened: None,
                last: 0,
                commits: 0,
                aborts: 0,
                slots: [None; 64],
            },
            version_hint: 0,
            note_hint: 0,
        }
    }

    // Where a free version entry is, if there is one.
    pub(crate) fn version_place<T: Copy>(&self, versions: &[Entry<T>]) -> usize
        ensures { result ≡ version_place self.now versions.now }
    {
        place_from(versions, self.version_hint)
    }

    // Where a free note is, if there is one and the transaction makes notes.
    pub(crate) fn note_place<T: Copy>(&self, notes: &[Entry<T>], transaction: u64) -> usize
        ensures { result ≡ note_place self.now notes.now transaction }
    {
        note_place_for(find(&self.store.slots, transaction), self.note_hint, notes)
    }
}
