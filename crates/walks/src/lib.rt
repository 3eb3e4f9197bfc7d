// Walks over the versions that an index leads to, and new versions in the table and the index.
#![tactic(auto)]

use index::{Index, IndexFault};
use rules::Entry;
use seeing::{Slots, Version};

mod additions;
mod reach;
mod rows;
mod surveys;

pub use additions::{add, add_if};
pub use reach::reach_one;

/// The versions of the keys from lower to upper, and the transaction that walks over them, by key and then place.
#[derive(Drop)]
pub struct Search<'a, I: Index, V> {
    pub slots: &'a Slots,
    pub versions: &'a [Entry<Version<I::Key, V>>],
    pub index: &'a I,
    pub name: u64,
    pub lower: I::Key,
    pub upper: I::Key,
}

/// What a walk over versions has found: the first one visible and its place, the marks of those to wait on,
/// and whether one is too new for an insert.
#[derive(Clone, Copy)]
pub struct Survey<K, V> {
    pub seen: Option<(usize, Version<K, V>)>,
    pub waits: [bool; 64],
    pub newer: bool,
}

/// A fault of the index, and the transaction on whose behalf the index was asked.
// A fault is put beside what it gains and turned by `From` at the `?`, as a rule of the project.
#[derive(Clone, Copy)]
pub struct FaultFor {
    pub transaction: u64,
    pub fault: IndexFault,
}
