// The plain book: at most one value for a key, and no transactions.
ghost use Rattle.std.specs.Prelude.{vec_len};
ghost use Rattle.std.specs.List.Sorted.{IsSearchInRange};

use crate::Asked;
use keys::Key;
use rules::{Answer, BookCall, Row};
use std::alloc::{AllocError, Global};
use std::fmt;
use std::fmt::Display;

/// The rows, by key.
// Not a BTreeMap: a Key compares by an order of its own, and a map would ask callers for an Ord besides.
#[derive(Drop)]
pub struct Book<K, V> {
    rows: Vec<Row<K, V>>,
}

impl<K: Key + Drop, V: Copy + Drop> Book<K, V> {
    pub fn new(heap: Global) -> Book<K, V> {
        Book {
            rows: Vec::new(heap),
        }
    }

    /// The rows in order.
    pub fn rows(&self) -> &[Row<K, V>] {
        &self.rows
    }

    // Where the row of the key stands, or else where it would.
    fn find(&self, key: K) -> Result<usize, usize>
        ensures { IsSearchInRange result (vec_len self.now.rows) }
    {
        self.rows.binary_search_by(|row| row.key.compare(&key))
    }

    fn value(&self, key: K) -> Option<V> {
        let at = self.find(key).ok()?;
        self.rows.get(at).map(|row| row.value)
    }

    // How many rows lie from lower to upper.
    fn count(&self, lower: K, upper: K) -> usize {
        self.rows
            .iter()
            .filter(|row| row.key.compare(&lower).is_ge() && row.key.compare(&upper).is_le())
            .count()
    }

    /// What the book answers, as it stands.
    pub fn answer(&self, call: BookCall<K, V>) -> Answer<V> {
        match call {
            BookCall::Read(key) => self.value(key).map_or(Answer::Absent, Answer::Value),
            BookCall::Scan(lower, upper) => Answer::Number(self.count(lower, upper)),
            BookCall::Insert(key, _) if self.find(key).is_ok() => Answer::Present,
            BookCall::Insert(_, _) => Answer::Done,
            BookCall::Update(key, _) | BookCall::Delete(key) if self.find(key).is_ok() => {
                Answer::Done
            }
            BookCall::Update(_, _) | BookCall::Delete(_) => Answer::Absent,
        }
    }

    /// A call that the store answered "done" sets the value, or takes it out.
    pub fn follow(&mut self, asked: Asked<K, V>) -> Result<(), AllocError> {
        let Answer::Done = asked.answer else {
            return Ok(());
        };
        match asked.call {
            BookCall::Insert(key, value) | BookCall::Update(key, value) => self.set(key, value),
            BookCall::Delete(key) => {
                self.take_out(key);
                Ok(())
            }
            BookCall::Read(_) | BookCall::Scan(_, _) => Ok(()),
        }
    }

    fn set(&mut self, key: K, value: V) -> Result<(), AllocError> {
        let row = Row { key, value };
        match self.find(key) {
            Ok(at) => self.rows[at] = row,
            Err(at) => self.rows.insert(at, row)?,
        }
        Ok(())
    }

    fn take_out(&mut self, key: K) {
        if let Ok(at) = self.find(key) {
            let _ = self.rows.remove(at);
        }
    }
}

/// Each row on a line.
impl<K: Key + Display + Drop, V: Copy + Display + Drop> Display for Book<K, V> {
    fn fmt<W: fmt::Write>(&self, f: &mut fmt::Formatter<W>) -> fmt::Result {
        for row in &self.rows {
            writeln!(f, "  {} → {}", row.key, row.value)?;
        }
        Ok(())
    }
}
