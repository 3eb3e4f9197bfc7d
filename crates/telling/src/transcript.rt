// What was asked and answered, by transaction.
use desks::Said;
use rules::{Answer, BookCall, Call};
use std::alloc::{AllocError, Global};

/// A call on rows that was not refused, the transaction that made it, and the answer.
#[derive(Clone, Copy)]
pub struct Asked<K, V> {
    pub name: u64,
    pub call: BookCall<K, V>,
    pub answer: Answer<V>,
}

/// A transaction that was prepared, with its end stamp.
#[derive(Clone, Copy)]
pub struct Turn {
    pub name: u64,
    pub end: u64,
    pub committed: bool,
}

/// The calls on rows in the order in which they were made, and the transactions in the order in which they were prepared.
#[derive(Drop)]
pub struct Transcript<K, V> {
    asked: Vec<Asked<K, V>>,
    turns: Vec<Turn>,
}

impl<K: Copy + Drop, V: Copy + Drop> Transcript<K, V> {
    pub fn new(heap: Global) -> Transcript<K, V> {
        Transcript {
            asked: Vec::new(heap),
            turns: Vec::new(heap),
        }
    }

    /// Records a call and what the store said to it.
    pub fn record(&mut self, call: Call<K, V>, said: Said<V>) -> Result<(), AllocError> {
        match (call, said) {
            (Call::Book(name, call), Ok(answer)) => {
                self.asked.push(Asked { name, call, answer })?
            }
            (Call::Prepare(name), Ok(Answer::Stamp(end))) => self.turns.push(Turn {
                name,
                end,
                committed: false,
            })?,
            (Call::Commit(name), Ok(_)) => self.commit(name),
            _ => (),
        }
        Ok(())
    }

    fn commit(&mut self, name: u64) {
        for turn in self.turns.iter_mut() {
            if turn.name == name {
                turn.committed = true;
            }
        }
    }

    pub fn asked(&self) -> &[Asked<K, V>] {
        &self.asked
    }

    pub fn turns(&self) -> &[Turn] {
        &self.turns
    }

    /// The committed transaction with the lowest end stamp above the one given.
    pub fn next_turn(&self, after: u64) -> Option<Turn> {
        self.turns
            .iter()
            .filter(|turn| turn.committed && turn.end > after)
            .min_by_key(|turn| turn.end)
            .copied()
    }
}
