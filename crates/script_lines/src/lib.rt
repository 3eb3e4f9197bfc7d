// A script's bytes taken apart into lines, fields, words and numbers, down to the store's calls.
#![tactic(auto)]

mod calls;
mod fields;
mod lines;
mod numbers;
mod steps;
mod words;

pub use calls::call_of;
pub use lines::cut_line;
pub use steps::read_step;
pub use words::index_kind;

/// What is wrong with a line: the field with an unknown word, the number of fields, or the field that is no number
/// in range. Fields are counted from 1, the word's own.
#[derive(Clone, Copy, Debug, PartialEq, Eq)]
pub enum LineFault {
    Word(usize),
    Count,
    Number(usize),
}

/// The index that a script's first line picks.
#[derive(Clone, Copy, Debug, PartialEq, Eq)]
pub enum IndexKind {
    Hash,
    Ordered,
}

/// A line that was read: its fields are parts of the script, and its numbers are worked out later.
#[derive(Clone, Copy, Debug, PartialEq, Eq)]
pub enum Step<'a> {
    Begin {
        level: &'a [u8],
    },
    Read {
        transaction: &'a [u8],
        key: &'a [u8],
    },
    Scan {
        transaction: &'a [u8],
        lower: &'a [u8],
        upper: &'a [u8],
    },
    Insert {
        transaction: &'a [u8],
        key: &'a [u8],
        score: &'a [u8],
    },
    Update {
        transaction: &'a [u8],
        key: &'a [u8],
        score: &'a [u8],
    },
    Delete {
        transaction: &'a [u8],
        key: &'a [u8],
    },
    Prepare {
        transaction: &'a [u8],
    },
    Validate {
        transaction: &'a [u8],
    },
    Commit {
        transaction: &'a [u8],
    },
    Abort {
        transaction: &'a [u8],
    },
    Finish {
        transaction: &'a [u8],
    },
    Sweep,
    Tally,
}
