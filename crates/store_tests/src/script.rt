// Scripts: calls, each with the refusal that it is to meet.
use chains::Chains;
use desks::Room;
use index::Index;
use keys::{CardNumber, Score};
use ordered::InOrder;
use rules::{Answer, BookCall, Call, Entry, Refusal};
use seeing::{Begin, End, Level, Version};
use std::alloc::Global;
use std::fmt;
use std::process::Abort;
use std::test::Fail;
use trying::{BLANK, Desk, Trouble, disturb, number_of};

pub const BEGIN: Call<CardNumber, Score> = Call::Begin(Level::Serializable);

pub const READ_10: BookCall<CardNumber, Score> = BookCall::Read(CardNumber(10));

pub const READ_15: BookCall<CardNumber, Score> = BookCall::Read(CardNumber(15));

pub const READ_20: BookCall<CardNumber, Score> = BookCall::Read(CardNumber(20));

pub const SCAN: BookCall<CardNumber, Score> = BookCall::Scan(CardNumber(0), CardNumber(100));

pub const BACKWARD: BookCall<CardNumber, Score> = BookCall::Scan(CardNumber(20), CardNumber(10));

pub const INSERT_10: BookCall<CardNumber, Score> = BookCall::Insert(CardNumber(10), Score(6));

pub const INSERT_15: BookCall<CardNumber, Score> = BookCall::Insert(CardNumber(15), Score(6));

pub const UPDATE_10: BookCall<CardNumber, Score> = BookCall::Update(CardNumber(10), Score(6));

pub const UPDATE_15: BookCall<CardNumber, Score> = BookCall::Update(CardNumber(15), Score(6));

pub const UPDATE_20: BookCall<CardNumber, Score> = BookCall::Update(CardNumber(20), Score(6));

pub const DELETE_10: BookCall<CardNumber, Score> = BookCall::Delete(CardNumber(10));

pub const DELETE_15: BookCall<CardNumber, Score> = BookCall::Delete(CardNumber(15));

/// A line of a script. The store is opened anew and set up; a call gets that answer, or meets that refusal, or the one of
/// that number (0 for none), once or so many times; every call but open is refused with 1; transaction 1 inserts so many
/// rows.
/// Tables are made longer or shorter. Or they are disturbed: the entry of a key is freed, two are swapped, one is
/// overwritten; a pair is put that leads to that place, to the entry of another key, or to a free one; the pair of a key
/// is removed.
#[derive(Clone, Copy)]
pub enum Step {
    Fresh,
    Says(Call<CardNumber, Score>, Answer<Score>),
    Tell(Call<CardNumber, Score>, u8),
    Often(u8, Call<CardNumber, Score>, u8),
    Refuse(Call<CardNumber, Score>, Refusal),
    NoneAllowed,
    Fill(u32),
    MoreVersions,
    FewerVersions,
    MoreNotes,
    FewerNotes,
    Free(u32),
    Swap(u32, u32),
    Overwrite(u32, Begin, End),
    Put(u32, usize),
    PutAt(u32, u32),
    PutFree(u32),
    Remove(u32),
}

// 10→5 and 20→7, committed at stamp 2.
const SET_UP: [Call<CardNumber, Score>; 8] = [
    Call::Open(0),
    Call::Begin(Level::Serializable),
    Call::Book(1, BookCall::Insert(CardNumber(10), Score(5))),
    Call::Book(1, BookCall::Insert(CardNumber(20), Score(7))),
    Call::Prepare(1),
    Call::Validate(1),
    Call::Commit(1),
    Call::Finish(1),
];

// What a failed step names: the script among those of its test, from 0, and the line in it.
#[derive(Clone, Copy)]
struct Spot {
    script: usize,
    line: usize,
}

impl fmt::Display for Spot {
    fn fmt<W: fmt::Write>(&self, f: &mut fmt::Formatter<W>) -> fmt::Result {
        write!(f, "script {}, line {}", self.script, self.line)
    }
}

// Each call meets the refusal of that number, 0 for none.
// Handle, desk and spot are lent to each function anew: a struct of them would only rename them.
fn tell_each<I: Index<Key = CardNumber> + Drop>(
    rt: &impl Abort,
    desk: &mut Desk<I>,
    calls: &[Call<CardNumber, Score>],
    told: u8,
    spot: Spot,
) {
    for call in calls {
        assert_eq!(rt; number_of(desk.perform(*call)), told, "{spot}");
    }
}

fn tell_often<I: Index<Key = CardNumber> + Drop>(
    rt: &impl Abort,
    desk: &mut Desk<I>,
    times: u8,
    call: Call<CardNumber, Score>,
    told: u8,
    spot: Spot,
) {
    for _ in 0..times {
        assert_eq!(rt; number_of(desk.perform(call)), told, "{spot}");
    }
}

// The first place of the key by the index.
fn place_of<I: Index<Key = CardNumber> + Drop>(desk: &Desk<I>, key: u32) -> usize {
    desk.index
        .next_place(CardNumber(key), 0)
        .unwrap_or(usize::MAX)
}

fn free_place<I: Index<Key = CardNumber> + Drop>(desk: &Desk<I>) -> usize {
    desk.versions
        .iter()
        .position(|entry| entry.get().is_none())
        .unwrap_or(usize::MAX)
}

fn strange(key: u32, begin: Begin, end: End) -> Version<CardNumber, Score> {
    Version {
        key: CardNumber(key),
        value: Score(9),
        begin,
        end,
    }
}

// The trouble that a step makes, if it makes any.
fn trouble_of<I: Index<Key = CardNumber> + Drop>(desk: &Desk<I>, step: Step) -> Option<Trouble> {
    match step {
        Step::Free(key) => Some(Trouble::Free(place_of(desk, key))),
        Step::Swap(one, other) => Some(Trouble::Swap(place_of(desk, one), place_of(desk, other))),
        Step::Overwrite(key, begin, end) => Some(Trouble::Hold(
            place_of(desk, key),
            strange(key, begin, end),
        )),
        Step::Put(key, place) => Some(Trouble::Put(CardNumber(key), place)),
        Step::PutAt(key, other) => Some(Trouble::Put(CardNumber(key), place_of(desk, other))),
        Step::PutFree(key) => Some(Trouble::Put(CardNumber(key), free_place(desk))),
        Step::Remove(key) => Some(Trouble::Remove(CardNumber(key), place_of(desk, key))),
        _ => None,
    }
}

// Every call but open; the transaction need not be there.
const OTHERS: [Call<CardNumber, Score>; 13] = [
    BEGIN,
    Call::Book(1, READ_10),
    Call::Book(1, BACKWARD),
    Call::Book(1, INSERT_10),
    Call::Book(1, UPDATE_10),
    Call::Book(1, DELETE_10),
    Call::Prepare(1),
    Call::Validate(1),
    Call::Commit(1),
    Call::Abort(1),
    Call::Finish(1),
    Call::Sweep,
    Call::Tally,
];

fn fill<I: Index<Key = CardNumber> + Drop>(
    rt: &impl Abort,
    desk: &mut Desk<I>,
    number: u32,
    spot: Spot,
) {
    // The number is the key, and no index.
    for key in 0..number {
        let call = Call::Book(1, BookCall::Insert(CardNumber(key), Score(1)));
        assert_eq!(rt; number_of(desk.perform(call)), 0, "{spot}");
    }
}

// A step that makes a table longer or shorter, or disturbs it.
fn alter<I: Index<Key = CardNumber> + Drop>(desk: &mut Desk<I>, step: Step) -> Result<(), Fail> {
    match step {
        Step::MoreVersions => desk.versions.push(Entry::free())?,
        Step::MoreNotes => desk.notes.push(Entry::free())?,
        Step::FewerVersions => {
            let _ = desk.versions.pop();
        }
        Step::FewerNotes => {
            let _ = desk.notes.pop();
        }
        _ => {
            if let Some(trouble) = trouble_of(desk, step) {
                disturb(desk, trouble);
            }
        }
    }
    Ok(())
}

fn take<I: Index<Key = CardNumber> + Drop>(
    rt: &impl Abort,
    desk: &mut Desk<I>,
    step: Step,
    spot: Spot,
) -> Result<(), Fail> {
    match step {
        Step::Fresh => tell_each(rt, desk, &SET_UP, 0, spot),
        Step::Says(call, answer) => {
            assert_eq!(rt; desk.perform(call), Ok(answer), "{spot}");
        }
        Step::Tell(call, told) => {
            assert_eq!(rt; number_of(desk.perform(call)), told, "{spot}");
        }
        Step::Often(times, call, told) => tell_often(rt, desk, times, call, told, spot),
        Step::Refuse(call, refusal) => {
            assert_eq!(rt; desk.perform(call), Err(refusal), "{spot}");
        }
        Step::NoneAllowed => tell_each(rt, desk, &OTHERS, 1, spot),
        Step::Fill(number) => fill(rt, desk, number, spot),
        _ => alter(desk, step)?,
    }
    Ok(())
}

// Plays a script line by line.
fn play<I: Index<Key = CardNumber> + Drop>(
    rt: &impl Abort,
    desk: &mut Desk<I>,
    lines: &[Step],
    script: usize,
) -> Result<(), Fail> {
    for (line, step) in lines.iter().enumerate() {
        take(rt, desk, *step, Spot { script, line })?;
    }
    Ok(())
}

/// Plays a script over both indexes, one of several in a test, by its number there.
pub fn play_numbered(
    rt: &impl Abort,
    heap: Global,
    room: Room,
    lines: &[Step],
    script: usize,
) -> Result<(), Fail> {
    let ordered = InOrder::new(heap, room.pairs)?;
    let chained = Chains::new(heap, room.pairs)?;
    play(
        rt,
        &mut Desk::new(heap, ordered, room, BLANK)?,
        lines,
        script,
    )?;
    play(
        rt,
        &mut Desk::new(heap, chained, room, BLANK)?,
        lines,
        script,
    )
}

/// Plays a script over both indexes.
pub fn play_both(rt: &impl Abort, heap: Global, room: Room, script: &[Step]) -> Result<(), Fail> {
    play_numbered(rt, heap, room, script, 0)
}
