// How calls, answers and refusals are shown.
ghost use Rattle.std.specs.Prelude.{◌≡◌};
ghost use Rattle.rules.specs.Said.{said, letters};

use crate::{Answer, BookCall, Call, Refusal};
use std::fmt;
use std::fmt::Display;

impl Display for Refusal {
    fn fmt<W: fmt::Write>(&self, f: &mut fmt::Formatter<W>) -> fmt::Result {
        match self.carried() {
            Some(carried) => write!(f, "refusal {} ({carried})", self.number()),
            None => write!(f, "refusal {}", self.number()),
        }
    }
}

impl<V> Answer<V> {
    /// Its word; empty where it says a value or numbers.
    pub fn word(&self) -> &'static str
        ensures { result.now ≡ letters (said self.now) }
    {
        match self {
            Answer::Done => "done",
            Answer::Present => "present",
            Answer::Absent => "absent",
            _ => "",
        }
    }
}

impl<V: Display> Display for Answer<V> {
    fn fmt<W: fmt::Write>(&self, f: &mut fmt::Formatter<W>) -> fmt::Result {
        match self {
            Answer::Value(value) => write!(f, "{value}"),
            Answer::Stamp(stamp) => write!(f, "{stamp}"),
            Answer::Number(number) => write!(f, "{number}"),
            Answer::Tallied(commits, aborts) => write!(f, "{commits}, {aborts}"),
            _ => f.write_str(self.word()),
        }
    }
}

impl<K: Display, V: Display> Display for BookCall<K, V> {
    fn fmt<W: fmt::Write>(&self, f: &mut fmt::Formatter<W>) -> fmt::Result {
        match self {
            BookCall::Read(key) => write!(f, "read {key}"),
            BookCall::Scan(lower, upper) => write!(f, "scan {lower} to {upper}"),
            BookCall::Insert(key, value) => write!(f, "insert {key} → {value}"),
            BookCall::Update(key, value) => write!(f, "update {key} → {value}"),
            BookCall::Delete(key) => write!(f, "delete {key}"),
        }
    }
}

impl<K: Display, V: Display> Display for Call<K, V> {
    fn fmt<W: fmt::Write>(&self, f: &mut fmt::Formatter<W>) -> fmt::Result {
        match self {
            Call::Open(stamp) => write!(f, "open {stamp}"),
            Call::Begin(level) => write!(f, "begin {level}"),
            Call::Book(transaction, asked) => write!(f, "{transaction} {asked}"),
            Call::Prepare(transaction) => write!(f, "{transaction} prepare"),
            Call::Validate(transaction) => write!(f, "{transaction} validate"),
            Call::Commit(transaction) => write!(f, "{transaction} commit"),
            Call::Abort(transaction) => write!(f, "{transaction} abort"),
            Call::Finish(transaction) => write!(f, "{transaction} finish"),
            Call::Sweep => f.write_str("sweep"),
            Call::Tally => f.write_str("tally"),
        }
    }
}
