// Versions and transactions: who sees which version and whom it then waits on, which versions tell against a change,
// and what a version becomes when a transaction that it names is finished.
#![tactic(auto)]

mod changes;
mod marks;
mod phases;
mod sight;

pub use sight::{Sight, find, phase_of};
use std::fmt;

/// The slots of a store, each with a transaction or none.
pub type Slots = [Option<Transaction>; 64];

/// When a version begins: at a stamp, or at the end stamp of the transaction named.
#[derive(Clone, Copy, PartialEq, Eq, Debug)]
pub enum Begin {
    Stamp(u64),
    Owner(u64),
}

/// When a version ends: as it begins, or not yet.
#[derive(Clone, Copy, PartialEq, Eq, Debug)]
pub enum End {
    Stamp(u64),
    Owner(u64),
    Open,
}

#[derive(Clone, Copy, PartialEq, Eq, Debug)]
pub enum Level {
    Serializable,
    Snapshot,
}

impl fmt::Display for Level {
    fn fmt<W: fmt::Write>(&self, f: &mut fmt::Formatter<W>) -> fmt::Result {
        f.write_str(match self {
            Level::Serializable => "serializable",
            Level::Snapshot => "snapshot",
        })
    }
}

/// Where a transaction stands; from prepare to commit with its end stamp.
#[derive(Clone, Copy, PartialEq, Eq, Debug)]
pub enum Phase {
    Active,
    Preparing(u64),
    Validated(u64),
    Committed(u64),
    Aborted,
}

/// A transaction, named by its begin stamp. `waits[i]` says whether it waits on the one in slot i,
/// and `made` counts the notes that it made.
#[derive(Clone, Copy, PartialEq, Eq, Debug)]
pub struct Transaction {
    pub name: u64,
    pub level: Level,
    pub phase: Phase,
    pub doomed: bool,
    pub made: u64,
    pub waits: [bool; 64],
}

/// One value of a key, and when it begins and ends.
#[derive(Clone, Copy, PartialEq, Eq, Debug)]
pub struct Version<K, V> {
    pub key: K,
    pub value: V,
    pub begin: Begin,
    pub end: End,
}
