// The store's tables, calls, answers and refusals. What the calls do is defined in specs/ over these types.
#![tactic(auto)]

ghost use Rattle.std.specs.Prelude.{◌≡◌, Some, None};
ghost use Rattle.std.specs.Option.{option_to_list};
ghost use Rattle.rules.specs.Said.{number, carried};
ghost use Rattle.rules.specs.Example.{Example};
ghost use Rattle.rules.specs.Positions.{PositionsHold};
ghost use Rattle.rules.specs.Law.{SerialLaw};

mod shown;

use index::IndexFault;
use keys::Key;
use seeing::{Level, Transaction};

/// The lengths of the version table and the note table at opening.
#[derive(Clone, Copy, PartialEq, Eq, Debug)]
pub struct Lengths {
    pub versions: usize,
    pub notes: usize,
}

/// What a store keeps to itself: `opened` is none before the first opening, `last` is the last stamp given,
/// and each slot holds a transaction or none.
#[derive(Clone, Copy, PartialEq, Eq, Debug)]
pub struct Store {
    pub opened: Option<Lengths>,
    pub last: u64,
    pub commits: u64,
    pub aborts: u64,
    pub slots: [Option<Transaction>; 64],
}

/// An entry of a table that the caller keeps; a free one holds nothing.
// Not a bare Option: an entry of a table has a name of its own, by which the rules speak of it.
#[derive(Clone, Copy, PartialEq, Eq, Debug)]
pub struct Entry<T> {
    held: Option<T>,
}

impl<T: Copy> Entry<T> {
    /// A free entry.
    pub fn free() -> Entry<T>
        ensures { result.held ≡ None }
    {
        Entry { held: None }
    }

    /// An entry that holds the item, or a free one.
    pub fn holding(held: Option<T>) -> Entry<T>
        ensures { result.held ≡ held }
    {
        Entry { held }
    }

    /// What the entry holds.
    pub fn get(&self) -> Option<T>
        ensures { result ≡ self.now.held }
    {
        self.held
    }
}

/// What a note keeps: a version by its key and place, or a range of keys.
#[derive(Clone, Copy, PartialEq, Eq, Debug)]
pub enum Noted<K> {
    Version(K, usize),
    Range(K, K),
}

/// A note: what a serializable transaction has met and is to find again at its end stamp.
/// `number` tells the order in which its owner made its notes.
#[derive(Clone, Copy, PartialEq, Eq, Debug)]
pub struct Note<K> {
    pub owner: u64,
    pub number: u64,
    pub noted: Noted<K>,
}

/// A row that a scan hands out.
#[derive(Clone, Copy, PartialEq, Eq, Debug)]
pub struct Row<K, V> {
    pub key: K,
    pub value: V,
}

/// What a transaction may ask of the rows.
#[derive(Clone, Copy, PartialEq, Eq, Debug)]
pub enum BookCall<K, V> {
    Read(K),
    Scan(K, K),
    Insert(K, V),
    Update(K, V),
    Delete(K),
}

/// A call; all but open, begin, sweep and tally name a transaction.
#[derive(Clone, Copy, PartialEq, Eq, Debug)]
pub enum Call<K, V> {
    Open(u64),
    Begin(Level),
    Book(u64, BookCall<K, V>),
    Prepare(u64),
    Validate(u64),
    Commit(u64),
    Abort(u64),
    Finish(u64),
    Sweep,
    Tally,
}

/// The refusals, in the order in which they are checked. `Full` holds the transaction and the index's own fault,
/// `Waiting` how many the transaction waits on.
#[derive(Clone, Copy, PartialEq, Eq, Debug)]
pub enum Refusal {
    Lengths,
    OpeningStamp,
    Unknown,
    Phase,
    Doomed,
    Keys,
    Version,
    Conflict,
    Rows,
    Notes,
    Versions,
    Full(u64, IndexFault),
    Transactions,
    LastStamp,
    Validation,
    Waiting(usize),
}

impl Refusal {
    /// Its number, which is also its place in the order of the checks.
    // A number, since it is printed and is part of the rules; code tests the enum.
    pub fn number(self) -> u8
        ensures { result ≡ number self }
    {
        match self {
            Refusal::Lengths => 1,
            Refusal::OpeningStamp => 2,
            Refusal::Unknown => 3,
            Refusal::Phase => 4,
            Refusal::Doomed => 5,
            Refusal::Keys => 6,
            Refusal::Version => 7,
            Refusal::Conflict => 8,
            Refusal::Rows => 9,
            Refusal::Notes => 10,
            Refusal::Versions => 11,
            Refusal::Full(_, _) => 12,
            Refusal::Transactions => 13,
            Refusal::LastStamp => 14,
            Refusal::Validation => 15,
            Refusal::Waiting(_) => 16,
        }
    }

    /// What it carries besides its number: the capacity of a full index, or how many are waited on.
    pub fn carried(self) -> Option<usize>
        ensures { option_to_list result ≡ carried self }
    {
        match self {
            Refusal::Full(_, fault) => Some(fault.capacity),
            Refusal::Waiting(waited_on) => Some(waited_on),
            _ => None,
        }
    }
}

/// What an accepted call answers; a scan's rows stand in the row table.
#[derive(Clone, Copy, PartialEq, Eq, Debug)]
pub enum Answer<V> {
    Done,
    Present,
    Absent,
    Value(V),
    Stamp(u64),
    Number(usize),
    Tallied(u64, u64),
}

/// The rules give the answers of the table of played positions.
pub fn played_positions_hold()
    ensures { PositionsHold }
{}

/// Every run keeps the law, for every kind of key and of value: the committed transactions have a serial order.
pub fn law_holds<K: Key, V>()
    ensures { SerialLaw K V K.Key.order }
{}

/// The run of specs/Example.antt is a run, with the answers listed there.
pub fn example_is_run()
    ensures { Example }
{}
