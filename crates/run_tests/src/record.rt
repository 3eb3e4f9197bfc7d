// What was asked and answered, by transaction, and its retelling on a plain book.
// Not telling's transcript and book: these keep the level and a sum over the rows of a scan, and replay without a heap.
use crate::book::{Book, Told};
use keys::{CardNumber, Score};
use rules::{Answer, BookCall, Call};
use seeing::Level;
use std::alloc::{AllocError, Global};
use std::process::Abort;

/// A call on rows that was not refused.
#[derive(Clone, Copy)]
pub struct Asked {
    pub name: u64,
    pub call: BookCall<CardNumber, Score>,
    pub told: Told,
}

/// A transaction that was prepared.
#[derive(Clone, Copy)]
pub struct Turn {
    pub name: u64,
    pub level: Level,
    pub end: u64,
    pub committed: bool,
}

/// The calls in the order in which they were made, and the transactions in the order of their end stamps.
#[derive(Drop)]
pub struct Record {
    asked: Vec<Asked>,
    turns: Vec<Turn>,
}

impl Record {
    pub fn new(heap: Global) -> Record {
        Record {
            asked: Vec::new(heap),
            turns: Vec::new(heap),
        }
    }

    pub fn clear(&mut self) {
        self.asked.clear();
        self.turns.clear();
    }

    /// Records a call of a transaction of that level.
    pub fn add(
        &mut self,
        level: Level,
        call: Call<CardNumber, Score>,
        told: Told,
    ) -> Result<(), AllocError> {
        match (call, told.answer) {
            (Call::Book(name, call), _) => self.asked.push(Asked { name, call, told })?,
            (Call::Prepare(name), Answer::Stamp(end)) => self.turns.push(Turn {
                name,
                level,
                end,
                committed: false,
            })?,
            (Call::Commit(name), _) => self.commit(name),
            _ => (),
        }
        Ok(())
    }

    fn commit(&mut self, name: u64) {
        for turn in self.turns.iter_mut() {
            if turn.name == name {
                turn.committed = true;
            }
        }
    }

    pub fn commits(&self) -> u64 {
        self.turns.iter().filter(|turn| turn.committed).count() as u64
    }

    // Plays a transaction on the book; how many of its answers were not the book's.
    fn play(&self, book: &mut Book, name: u64) -> u32 {
        let mut wrong = 0u32;
        for one in self.asked.iter().filter(|one| one.name == name) {
            if book.tell(one.call) != one.told {
                wrong = wrong.saturating_add(1);
            }
            book.follow(one.call, one.told.answer);
        }
        wrong
    }

    /// The book once all commits with an end stamp below the limit are played.
    fn book_before(&self, limit: u64) -> Book {
        let mut book = Book::new();
        for turn in self
            .turns
            .iter()
            .filter(|turn| turn.committed && turn.end < limit)
        {
            let _ = self.play(&mut book, turn.name);
        }
        book
    }

    /// One after the other: each serializable transaction got the answers of the book on which the commits before it
    /// were played. The book at the end.
    pub fn check_serial(&self, rt: &impl Abort) -> Book {
        let mut book = Book::new();
        for turn in self.turns.iter().filter(|turn| turn.committed) {
            let wrong = self.play(&mut book, turn.name);
            if turn.level == Level::Serializable {
                assert_eq!(rt; wrong, 0);
            }
        }
        book
    }

    /// One moment: each transaction got the answers of the book on which the commits below its begin stamp were played.
    pub fn check_moments(&self, rt: &impl Abort) {
        for turn in self.turns.iter().filter(|turn| turn.committed) {
            let mut book = self.book_before(turn.name);
            assert_eq!(rt; self.play(&mut book, turn.name), 0);
        }
    }
}
