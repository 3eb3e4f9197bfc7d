// Asks a store many calls, over tables of three lengths and both indexes, and prints how many were answered and committed;
// with the word `time`, also how many there were in a second.
#![tactic(auto)]

use chains::Chains;
use desks::Room;
use index::Index;
use keys::{CardNumber, Score};
use ordered::InOrder;
use rules::{Answer, BookCall, Call};
use seeing::Level;
use std::time::{Duration, Instant};
use std::{env, fmt, io};
use trying::{BLANK, Desk, Said};

// How many keys a transaction asks for.
const TOGETHER: u32 = 16;

// What is asked of each key.
#[derive(Clone, Copy, PartialEq, Eq)]
enum Asked {
    Insert,
    Read,
    Update,
}

// What is measured: over how many rows, in how many transactions of each kind, and whether the speed is printed;
// without it each line is the same in every run.
#[derive(Clone, Copy)]
struct Size {
    rows: u32,
    transactions: u32,
    timed: bool,
}

impl fmt::Display for Asked {
    fn fmt<W: fmt::Write>(&self, f: &mut fmt::Formatter<W>) -> fmt::Result {
        f.write_str(match self {
            Asked::Insert => "insert",
            Asked::Read => "read",
            Asked::Update => "update",
        })
    }
}

impl Asked {
    fn call(self, key: u32) -> BookCall<CardNumber, Score> {
        match self {
            Asked::Insert => BookCall::Insert(CardNumber(key), Score(1)),
            Asked::Read => BookCall::Read(CardNumber(key)),
            Asked::Update => BookCall::Update(CardNumber(key), Score(2)),
        }
    }
}

// The answer is a value, or "done".
fn is_good(said: Said) -> bool {
    matches!(said, Ok(Answer::Value(_) | Answer::Done))
}

// From prepare to finish; whether the transaction was committed.
fn settle<I: Index<Key = CardNumber> + Drop>(desk: &mut Desk<I>, name: u64) -> bool {
    let _ = desk.perform(Call::Prepare(name));
    let _ = desk.perform(Call::Validate(name));
    let committed = is_good(desk.perform(Call::Commit(name)));
    let _ = desk.perform(Call::Finish(name));
    committed
}

// One transaction that asks the same of many keys; how many calls were answered, if it was committed.
fn play<I: Index<Key = CardNumber> + Drop>(desk: &mut Desk<I>, asked: Asked, first: u32) -> u32 {
    let Ok(Answer::Stamp(name)) = desk.perform(Call::Begin(Level::Serializable)) else {
        return 0;
    };
    let mut answered = 0u32;
    // `i` makes a key, and is no index.
    for i in 0..TOGETHER {
        if is_good(desk.perform(Call::Book(name, asked.call(first.wrapping_add(i))))) {
            answered = answered.saturating_add(1);
        }
    }
    if settle(desk, name) { answered } else { 0 }
}

// Before the first row is inserted, and again, the store is opened anew.
fn open_at<I: Index<Key = CardNumber> + Drop>(desk: &mut Desk<I>, asked: Asked, first: u32) {
    if asked == Asked::Insert && first == 0 {
        let _ = desk.perform(Call::Open(0));
    }
}

// Calls of one kind, row after row and then from the first again; every fourth transaction is followed by a sweep.
fn ask<I: Index<Key = CardNumber> + Drop>(desk: &mut Desk<I>, asked: Asked, size: Size) -> u32 {
    let mut answered = 0u32;
    for i in 0..size.transactions {
        let first = i.wrapping_mul(TOGETHER) % size.rows.max(1);
        open_at(desk, asked, first);
        answered = answered.saturating_add(play(desk, asked, first));
        if i % 4 == 3 {
            let _ = desk.perform(Call::Sweep);
        }
    }
    answered
}

fn per_second(calls: u32, spent: Duration) -> u128 {
    u128::from(calls)
        .saturating_mul(1000000)
        .checked_div(spent.as_micros())
        .unwrap_or(0)
}

fn measure<I: Index<Key = CardNumber> + Drop>(
    rt: &HostRuntime,
    desk: &mut Desk<I>,
    asked: Asked,
    size: Size,
) -> io::Result<()> {
    let start = Instant::now(rt)?;
    let answered = ask(desk, asked, size);
    let spent = start.elapsed(rt)?;
    if size.timed {
        let speed = per_second(answered, spent);
        println!(rt; "  {asked}: {answered} answered, {speed} in a second")
    } else {
        println!(rt; "  {asked}: {answered} answered")
    }
}

fn measure_all<I: Index<Key = CardNumber> + Drop>(
    rt: &HostRuntime,
    index: I,
    size: Size,
) -> anyhow::Result<()> {
    let length = size.rows as usize * 2;
    let room = Room {
        versions: length,
        notes: length,
        rows: 0,
        pairs: length,
    };
    let mut desk = Desk::new(rt.alloc(), index, room, BLANK)?;
    for asked in [Asked::Insert, Asked::Read, Asked::Update] {
        measure(rt, &mut desk, asked, size)?;
    }
    Ok(())
}

// Twice as many entries as rows, so that there is room for new versions.
fn measure_both(rt: &HostRuntime, size: Size) -> anyhow::Result<()> {
    let length = size.rows as usize * 2;
    let calls = size.transactions.saturating_mul(TOGETHER);
    println!(rt; "{length} entries, {calls} calls of each kind, cards in order")?;
    measure_all(rt, InOrder::new(rt.alloc(), length)?, size)?;
    println!(rt; "{length} entries, {calls} calls of each kind, cards in chains")?;
    measure_all(rt, Chains::new(rt.alloc(), length)?, size)
}

// The word `time` was given.
fn is_timed(rt: &HostRuntime) -> anyhow::Result<bool> {
    Ok(env::args(rt)?.any(|word| word.as_str() == "time"))
}

fn run(rt: &HostRuntime) -> anyhow::Result<()> {
    let timed = is_timed(rt)?;
    let transactions = if timed { 2048 } else { 8 };
    for rows in [128u32, 2048, 32768] {
        measure_both(
            rt,
            Size {
                rows,
                transactions,
                timed,
            },
        )?;
    }
    Ok(())
}

fn main(rt: HostRuntime) -> anyhow::Result<()> {
    run(&rt)
}
