// A store with its tables and its index, for the programs, the tests and the bench: the one place where they ask the store.
#![tactic(auto)]

use calls::TableStore;
use index::Index;
use rules::{Answer, Call, Entry, Note, Refusal, Row};
use seeing::Version;
use std::alloc::{AllocError, Global};

/// What a call comes to.
pub type Said<V> = Result<Answer<V>, Refusal>;

/// How long the tables are, and how many pairs fit into the index.
#[derive(Clone, Copy)]
pub struct Room {
    pub versions: usize,
    pub notes: usize,
    pub rows: usize,
    pub pairs: usize,
}

/// Eight of each.
pub const ROOMY: Room = Room {
    versions: 8,
    notes: 8,
    rows: 8,
    pairs: 8,
};

/// A store and what is lent to it.
#[derive(Drop)]
pub struct Desk<K, V, I> {
    pub store: TableStore,
    pub versions: Vec<Entry<Version<K, V>>>,
    pub notes: Vec<Entry<Note<K>>>,
    pub rows: Vec<Row<K, V>>,
    pub index: I,
}

impl<K: Copy + Drop, V: Copy + Drop, I: Index<Key = K> + Drop> Desk<K, V, I> {
    /// Free tables with that room, and a store that was never opened. `blank` fills the row table.
    pub fn new(
        heap: Global,
        index: I,
        room: Room,
        blank: Row<K, V>,
    ) -> Result<Desk<K, V, I>, AllocError> {
        Ok(Desk {
            store: TableStore::new(),
            versions: vec![in heap; Entry::free(); room.versions]?,
            notes: vec![in heap; Entry::free(); room.notes]?,
            rows: vec![in heap; blank; room.rows]?,
            index,
        })
    }

    pub fn perform(&mut self, call: Call<K, V>) -> Said<V> {
        self.store.perform(
            &mut self.versions,
            &mut self.notes,
            &mut self.index,
            &mut self.rows,
            call,
        )
    }
}
