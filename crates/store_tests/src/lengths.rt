// Lengths of tables and the capacity of the index.
use crate::script::{BEGIN, Step, play_both, play_numbered};
use desks::{ROOMY, Room};
use keys::{CardNumber, Score};
use ordered::InOrder;
use rules::{BookCall, Call};
use std::test::Fail;
use trying::{BLANK, Desk, number_of};

const ALL: usize = 65536;

// Lengths of the version table and the note table, the capacity, and the refusal of an open.
const OPENINGS: [(usize, usize, usize, u8); 10] = [
    (1, 0, 1, 0),
    (ALL, 0, ALL, 0),
    (ALL, ALL, ALL, 0),
    (0, 8, 8, 1),
    (ALL + 1, 8, 8, 1),
    (8, ALL + 1, 8, 1),
    (8, 8, 0, 1),
    (8, 8, ALL + 1, 1),
    (0, 0, 0, 1),
    (8, 8, ALL, 0),
];

// The length comes before the opening stamp (2).
#[test]
fn openings(rt: HostRuntime) -> Result<(), Fail> {
    for (i, (versions, notes, pairs, told)) in OPENINGS.iter().enumerate() {
        let room = Room {
            versions: *versions,
            notes: *notes,
            rows: 0,
            pairs: *pairs,
        };
        let late = if *told == 0 { 2 } else { *told };
        let script = [
            Step::Tell(Call::Open(18446744073709551615), late),
            Step::Tell(Call::Open(0), *told),
        ];
        play_numbered(&rt, rt.alloc(), room, &script, i)?;
    }
    Ok(())
}

// Before the first opening, and where a table is not as long as then.
const LENGTHS: [Step; 17] = [
    Step::NoneAllowed,
    Step::Tell(Call::Open(0), 0),
    Step::Tell(Call::Tally, 0),
    Step::MoreVersions,
    Step::NoneAllowed,
    Step::FewerVersions,
    Step::Tell(Call::Tally, 0),
    Step::FewerVersions,
    Step::NoneAllowed,
    Step::MoreVersions,
    Step::FewerNotes,
    Step::NoneAllowed,
    Step::MoreNotes,
    Step::Tell(Call::Tally, 0),
    Step::MoreNotes,
    Step::NoneAllowed,
    Step::Tell(Call::Open(0), 0),
];

#[test]
fn other_lengths(rt: HostRuntime) -> Result<(), Fail> {
    play_both(&rt, rt.alloc(), ROOMY, &LENGTHS)
}

// Another index may be lent, if its capacity is allowed.
const LENT: [(usize, u8); 5] = [(ALL + 1, 1), (7, 0), (0, 1), (ALL, 0), (1, 0)];

#[test]
fn other_capacities(rt: HostRuntime) -> Result<(), Fail> {
    let heap = rt.alloc();
    let mut desk = Desk::new(heap, InOrder::new(heap, 8)?, ROOMY, BLANK)?;
    assert_eq!(rt; number_of(desk.perform(Call::Open(0))), 0);
    for (pairs, told) in LENT {
        desk.index = InOrder::new(heap, pairs)?;
        assert_eq!(rt; number_of(desk.perform(Call::Tally)), told);
    }
    Ok(())
}

// As many rows as a version table can have entries, and one more (11).
const FILLED: [Step; 8] = [
    Step::Tell(Call::Open(0), 0),
    Step::Tell(BEGIN, 0),
    Step::Fill(65536),
    Step::Tell(
        Call::Book(1, BookCall::Insert(CardNumber(65536), Score(1))),
        11,
    ),
    Step::Tell(Call::Prepare(1), 0),
    Step::Tell(Call::Validate(1), 0),
    Step::Tell(Call::Commit(1), 0),
    Step::Tell(Call::Finish(1), 0),
];

#[test]
fn filled(rt: HostRuntime) -> Result<(), Fail> {
    let room = Room {
        versions: ALL,
        notes: 0,
        rows: 0,
        pairs: ALL,
    };
    play_both(&rt, rt.alloc(), room, &FILLED)
}
