// The plain book: a value or none for each of eight keys, and no transactions.
ghost use Rattle.std.specs.Prelude.{◌<◌};

use crate::draws::{APART, KEYS};
use keys::{CardNumber, Score};
use rules::{Answer, BookCall, Row};

/// What was answered, with a sum over the rows of a scan (0 for any other call).
#[derive(Clone, Copy, PartialEq, Eq, Debug)]
pub struct Told {
    pub answer: Answer<Score>,
    pub rows: u64,
}

/// An answer without rows.
impl From<Answer<Score>> for Told {
    fn from(answer: Answer<Score>) -> Told {
        Told { answer, rows: 0 }
    }
}

fn add_row(sum: u64, key: u32, value: i32) -> u64 {
    sum.wrapping_mul(1000003)
        .wrapping_add(u64::from(key))
        .wrapping_mul(1000003)
        .wrapping_add(i64::from(value).wrapping_add(1).unsigned_abs())
}

/// The sum over the first rows of the table, as many as were answered.
pub fn sum_of(rows: &[Row<CardNumber, Score>], answer: Answer<Score>) -> u64 {
    let Answer::Number(number) = answer else {
        return 0;
    };
    rows.iter()
        .take(number)
        .fold(0, |sum, row| add_row(sum, row.key.0, row.value.0))
}

/// The book; the key of each value is its place times the distance of two keys.
#[derive(Clone, Copy)]
pub struct Book {
    values: [Option<i32>; 8],
}

// Where the value of a key stands.
fn place(key: CardNumber) -> usize
    ensures { result < 8 }
{
    (key.0 / APART % 8) as usize
}

impl Book {
    pub fn new() -> Book {
        Book { values: [None; 8] }
    }

    fn value(&self, key: CardNumber) -> Option<i32> {
        self.values[place(key)]
    }

    fn set(&mut self, key: CardNumber, value: Option<i32>) {
        self.values[place(key)] = value;
    }

    /// What the book answers, as it stands.
    pub fn tell(&self, call: BookCall<CardNumber, Score>) -> Told {
        match call {
            BookCall::Scan(lower, upper) => self.tell_rows(lower.0, upper.0),
            BookCall::Read(key) => self
                .value(key)
                .map_or(Answer::Absent, |value| Answer::Value(Score(value)))
                .into(),
            BookCall::Insert(key, _) => self
                .value(key)
                .map_or(Answer::Done, |_| Answer::Present)
                .into(),
            BookCall::Update(key, _) | BookCall::Delete(key) => self
                .value(key)
                .map_or(Answer::Absent, |_| Answer::Done)
                .into(),
        }
    }

    fn tell_rows(&self, lower: u32, upper: u32) -> Told {
        let mut sum = 0u64;
        let mut number = 0usize;
        for i in 0..KEYS {
            if let Some(value) = self.row(i * APART, lower, upper) {
                sum = add_row(sum, i * APART, value);
                number = number.saturating_add(1);
            }
        }
        Told {
            answer: Answer::Number(number),
            rows: sum,
        }
    }

    // The value of the key, if it lies from lower to upper.
    fn row(&self, key: u32, lower: u32, upper: u32) -> Option<i32> {
        if key < lower || upper < key {
            return None;
        }
        self.value(CardNumber(key))
    }

    /// A call that was answered "done" sets the value, or takes it out.
    pub fn follow(&mut self, call: BookCall<CardNumber, Score>, answer: Answer<Score>) {
        let Answer::Done = answer else {
            return;
        };
        match call {
            BookCall::Insert(key, value) | BookCall::Update(key, value) => {
                self.set(key, Some(value.0))
            }
            BookCall::Delete(key) => self.set(key, None),
            BookCall::Read(_) | BookCall::Scan(_, _) => (),
        }
    }
}
