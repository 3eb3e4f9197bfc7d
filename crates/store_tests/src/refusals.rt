// Each refusal at its place in their order: of two that apply, the first is given.
use crate::script::{
    BACKWARD, BEGIN, DELETE_10, DELETE_15, INSERT_10, INSERT_15, READ_10, READ_15, READ_20, SCAN,
    Step, UPDATE_10, UPDATE_15, UPDATE_20, play_both,
};
use desks::{ROOMY, Room};
use index::IndexFault;
use rules::{Answer, Call, Refusal};
use seeing::Level;
use std::test::Fail;

// No transaction of that name (3), though the keys are backward (6); one that is finished is not there either.
// Then the phases (4): Active, Preparing, Validated, Committed, Aborted.
const PHASES: [Step; 45] = [
    Step::Fresh,
    Step::Tell(Call::Book(3, BACKWARD), 3),
    Step::Tell(Call::Prepare(3), 3),
    Step::Tell(Call::Validate(3), 3),
    Step::Tell(Call::Commit(3), 3),
    Step::Tell(Call::Abort(3), 3),
    Step::Tell(Call::Finish(3), 3),
    Step::Tell(Call::Book(1, READ_10), 3),
    Step::Tell(BEGIN, 0),
    Step::Tell(Call::Book(3, BACKWARD), 6),
    Step::Tell(Call::Validate(3), 4),
    Step::Tell(Call::Commit(3), 4),
    Step::Tell(Call::Finish(3), 4),
    Step::Tell(Call::Prepare(3), 0),
    Step::Tell(Call::Book(3, BACKWARD), 4),
    Step::Tell(Call::Book(3, INSERT_10), 4),
    Step::Tell(Call::Prepare(3), 4),
    Step::Tell(Call::Commit(3), 4),
    Step::Tell(Call::Finish(3), 4),
    Step::Tell(Call::Validate(3), 0),
    Step::Tell(Call::Book(3, UPDATE_10), 4),
    Step::Tell(Call::Prepare(3), 4),
    Step::Tell(Call::Validate(3), 4),
    Step::Tell(Call::Finish(3), 4),
    Step::Tell(Call::Commit(3), 0),
    Step::Tell(Call::Book(3, DELETE_10), 4),
    Step::Tell(Call::Prepare(3), 4),
    Step::Tell(Call::Validate(3), 4),
    Step::Tell(Call::Commit(3), 4),
    Step::Tell(Call::Abort(3), 4),
    Step::Tell(Call::Finish(3), 0),
    Step::Tell(Call::Finish(3), 3),
    Step::Tell(BEGIN, 0),
    Step::Tell(Call::Abort(5), 0),
    Step::Tell(Call::Book(5, READ_10), 4),
    Step::Tell(Call::Prepare(5), 4),
    Step::Tell(Call::Validate(5), 4),
    Step::Tell(Call::Commit(5), 4),
    Step::Tell(Call::Abort(5), 4),
    Step::Tell(Call::Finish(5), 0),
    Step::Tell(BEGIN, 0),
    Step::Tell(Call::Prepare(6), 0),
    Step::Tell(Call::Abort(6), 0),
    Step::Tell(Call::Validate(6), 4),
    Step::Tell(Call::Finish(6), 0),
];

// 5, 6 and 8 read what 3 has prepared, and are doomed (5) when it aborts: Active, Preparing and Validated.
// A phase (4) comes before that and before a wait (16), the keys (6) after it.
const DOOMED: [Step; 36] = [
    Step::Fresh,
    Step::Tell(BEGIN, 0),
    Step::Tell(Call::Book(3, UPDATE_10), 0),
    Step::Tell(Call::Prepare(3), 0),
    Step::Tell(BEGIN, 0),
    Step::Tell(Call::Book(5, READ_10), 0),
    Step::Tell(BEGIN, 0),
    Step::Tell(Call::Book(6, READ_10), 0),
    Step::Tell(Call::Prepare(6), 0),
    Step::Tell(BEGIN, 0),
    Step::Tell(Call::Book(8, READ_10), 0),
    Step::Tell(Call::Prepare(8), 0),
    Step::Tell(Call::Validate(8), 0),
    Step::Tell(Call::Commit(8), 16),
    Step::Tell(Call::Commit(6), 4),
    Step::Tell(Call::Abort(3), 0),
    Step::Tell(Call::Book(5, READ_10), 5),
    Step::Tell(Call::Book(5, BACKWARD), 5),
    Step::Tell(Call::Book(5, INSERT_15), 5),
    Step::Tell(Call::Prepare(5), 5),
    Step::Tell(Call::Validate(5), 4),
    Step::Tell(Call::Book(6, READ_10), 4),
    Step::Tell(Call::Prepare(6), 4),
    Step::Tell(Call::Validate(6), 5),
    Step::Tell(Call::Commit(6), 4),
    Step::Tell(Call::Finish(6), 4),
    Step::Tell(Call::Validate(8), 4),
    Step::Tell(Call::Commit(8), 5),
    Step::Tell(Call::Finish(8), 4),
    Step::Tell(Call::Abort(8), 0),
    Step::Tell(Call::Abort(6), 0),
    Step::Tell(Call::Abort(5), 0),
    Step::Tell(Call::Finish(3), 0),
    Step::Tell(Call::Finish(5), 0),
    Step::Tell(Call::Finish(6), 0),
    Step::Tell(Call::Finish(8), 0),
];

// Conflicts (8) of an update, an insert and a delete, and a validation that fails (15): each aborts.
const ABORTED: [Step; 43] = [
    Step::Fresh,
    Step::Tell(BEGIN, 0),
    Step::Tell(BEGIN, 0),
    Step::Tell(Call::Book(3, UPDATE_10), 0),
    Step::Tell(Call::Book(4, UPDATE_10), 8),
    Step::Tell(Call::Book(4, UPDATE_10), 4),
    Step::Tell(Call::Finish(4), 0),
    Step::Fresh,
    Step::Tell(BEGIN, 0),
    Step::Tell(BEGIN, 0),
    Step::Tell(Call::Book(3, INSERT_15), 0),
    Step::Tell(Call::Book(4, INSERT_15), 8),
    Step::Tell(Call::Book(4, READ_10), 4),
    Step::Tell(Call::Abort(4), 4),
    Step::Tell(Call::Finish(4), 0),
    Step::Fresh,
    Step::Tell(BEGIN, 0),
    Step::Tell(BEGIN, 0),
    Step::Tell(Call::Book(3, UPDATE_10), 0),
    Step::Tell(Call::Prepare(3), 0),
    Step::Tell(Call::Validate(3), 0),
    Step::Tell(Call::Commit(3), 0),
    Step::Tell(Call::Finish(3), 0),
    Step::Tell(Call::Book(4, DELETE_10), 8),
    Step::Tell(Call::Prepare(4), 4),
    Step::Tell(Call::Finish(4), 0),
    Step::Fresh,
    Step::Tell(BEGIN, 0),
    Step::Tell(BEGIN, 0),
    Step::Tell(Call::Book(3, READ_20), 0),
    Step::Tell(Call::Book(4, READ_10), 0),
    Step::Tell(Call::Book(3, UPDATE_10), 0),
    Step::Tell(Call::Book(4, UPDATE_20), 0),
    Step::Tell(Call::Prepare(3), 0),
    Step::Tell(Call::Validate(3), 0),
    Step::Tell(Call::Commit(3), 0),
    Step::Tell(Call::Prepare(4), 0),
    Step::Tell(Call::Validate(4), 15),
    Step::Tell(Call::Validate(4), 4),
    Step::Tell(Call::Commit(4), 4),
    Step::Tell(Call::Abort(4), 4),
    Step::Tell(Call::Finish(4), 0),
    Step::Says(Call::Tally, Answer::Tallied(2, 1)),
];

// Two versions, no note, one row, two pairs: all are taken. Rows (9) come before notes (10), a conflict (8) before
// a version entry (11), and that before the index (12). Nothing is changed: the transaction goes on.
const TIGHT: [Step; 24] = [
    Step::Fresh,
    Step::Tell(BEGIN, 0),
    Step::Tell(Call::Book(3, BACKWARD), 6),
    Step::Tell(Call::Book(3, SCAN), 9),
    Step::Tell(Call::Book(3, READ_10), 10),
    Step::Tell(Call::Book(3, READ_15), 10),
    Step::Tell(Call::Book(3, INSERT_10), 10),
    Step::Tell(Call::Book(3, UPDATE_15), 10),
    Step::Tell(Call::Book(3, DELETE_15), 10),
    Step::Tell(Call::Book(3, INSERT_15), 11),
    Step::Tell(Call::Book(3, UPDATE_20), 11),
    Step::Tell(Call::Book(3, DELETE_10), 0),
    Step::Tell(Call::Begin(Level::Snapshot), 0),
    Step::Tell(Call::Book(4, READ_10), 0),
    Step::Tell(Call::Book(4, SCAN), 9),
    Step::Tell(Call::Book(4, UPDATE_10), 8),
    Step::Tell(Call::Prepare(3), 0),
    Step::Tell(Call::Validate(3), 0),
    Step::Tell(Call::Commit(3), 0),
    Step::Tell(Call::Finish(3), 0),
    Step::Tell(Call::Finish(4), 0),
    Step::Says(Call::Sweep, Answer::Number(1)),
    Step::Says(BEGIN, Answer::Stamp(6)),
    Step::Says(Call::Book(6, INSERT_15), Answer::Done),
];

// Two pairs fit and a version entry is left: the index is full (12), after a conflict (8).
const FULL: [Step; 9] = [
    Step::Fresh,
    Step::Tell(BEGIN, 0),
    Step::Tell(Call::Book(3, INSERT_15), 12),
    Step::Tell(Call::Book(3, UPDATE_10), 12),
    Step::Tell(Call::Book(3, DELETE_10), 0),
    Step::Tell(BEGIN, 0),
    Step::Tell(Call::Book(4, UPDATE_10), 8),
    Step::Tell(Call::Book(3, INSERT_15), 12),
    Step::Refuse(
        Call::Book(3, INSERT_15),
        Refusal::Full(3, IndexFault { capacity: 2 }),
    ),
];

const LAST: u64 = 9223372036854775806;

// The opening stamp (2); no stamp is left (14), after the phase (4) and the doom (5).
const STAMPS: [Step; 21] = [
    Step::Tell(Call::Open(LAST + 1), 2),
    Step::Tell(Call::Open(18446744073709551615), 2),
    Step::Tell(Call::Open(LAST), 0),
    Step::Tell(BEGIN, 14),
    Step::Tell(Call::Open(LAST - 1), 0),
    Step::Tell(BEGIN, 0),
    Step::Tell(BEGIN, 14),
    Step::Tell(Call::Prepare(LAST), 14),
    Step::Tell(Call::Prepare(LAST - 1), 3),
    Step::Tell(Call::Open(LAST - 3), 0),
    Step::Tell(BEGIN, 0),
    Step::Tell(Call::Book(LAST - 2, INSERT_15), 0),
    Step::Tell(Call::Prepare(LAST - 2), 0),
    Step::Tell(BEGIN, 0),
    Step::Tell(Call::Book(LAST, READ_15), 0),
    Step::Tell(Call::Prepare(LAST), 14),
    Step::Tell(Call::Abort(LAST - 2), 0),
    Step::Tell(Call::Prepare(LAST), 5),
    Step::Tell(Call::Prepare(LAST - 2), 4),
    Step::Tell(Call::Abort(LAST), 0),
    Step::Tell(Call::Prepare(LAST), 4),
];

#[test]
fn phases(rt: HostRuntime) -> Result<(), Fail> {
    play_both(&rt, rt.alloc(), ROOMY, &PHASES)
}

#[test]
fn doomed(rt: HostRuntime) -> Result<(), Fail> {
    play_both(&rt, rt.alloc(), ROOMY, &DOOMED)
}

#[test]
fn aborted(rt: HostRuntime) -> Result<(), Fail> {
    play_both(&rt, rt.alloc(), ROOMY, &ABORTED)
}

// A test of its own as wrong_and_short is, so that its name says which table fell.
#[test]
fn tight(rt: HostRuntime) -> Result<(), Fail> {
    let room = Room {
        versions: 2,
        notes: 0,
        rows: 1,
        pairs: 2,
    };
    play_both(&rt, rt.alloc(), room, &TIGHT)
}

#[test]
fn stamps(rt: HostRuntime) -> Result<(), Fail> {
    play_both(&rt, rt.alloc(), ROOMY, &STAMPS)
}

// All slots are taken (13) before no stamp is left (14).
const SLOTS: [Step; 13] = [
    Step::Tell(Call::Open(0), 0),
    Step::Often(64, BEGIN, 0),
    Step::Tell(BEGIN, 13),
    Step::Tell(Call::Abort(40), 0),
    Step::Tell(BEGIN, 13),
    Step::Tell(Call::Finish(40), 0),
    Step::Tell(BEGIN, 0),
    Step::Tell(Call::Open(LAST - 64), 0),
    Step::Often(64, BEGIN, 0),
    Step::Tell(BEGIN, 13),
    Step::Tell(Call::Abort(LAST), 0),
    Step::Tell(Call::Finish(LAST), 0),
    Step::Tell(BEGIN, 14),
];

#[test]
fn slots(rt: HostRuntime) -> Result<(), Fail> {
    play_both(&rt, rt.alloc(), ROOMY, &SLOTS)
}

// 7 scans what 3 has prepared, and what 4 has, and waits (16) on both, then on 3, then on none.
const WAITING: [Step; 18] = [
    Step::Fresh,
    Step::Tell(BEGIN, 0),
    Step::Tell(BEGIN, 0),
    Step::Tell(Call::Book(3, UPDATE_10), 0),
    Step::Tell(Call::Book(4, UPDATE_20), 0),
    Step::Tell(Call::Prepare(3), 0),
    Step::Tell(Call::Prepare(4), 0),
    Step::Tell(BEGIN, 0),
    Step::Tell(Call::Book(7, SCAN), 0),
    Step::Tell(Call::Prepare(7), 0),
    Step::Tell(Call::Validate(7), 0),
    Step::Refuse(Call::Commit(7), Refusal::Waiting(2)),
    Step::Tell(Call::Validate(4), 0),
    Step::Tell(Call::Commit(4), 0),
    Step::Refuse(Call::Commit(7), Refusal::Waiting(1)),
    Step::Tell(Call::Validate(3), 0),
    Step::Tell(Call::Commit(3), 0),
    Step::Tell(Call::Commit(7), 0),
];

#[test]
fn waiting(rt: HostRuntime) -> Result<(), Fail> {
    play_both(&rt, rt.alloc(), ROOMY, &WAITING)
}

#[test]
fn full(rt: HostRuntime) -> Result<(), Fail> {
    let room = Room {
        versions: 3,
        pairs: 2,
        ..ROOMY
    };
    play_both(&rt, rt.alloc(), room, &FULL)
}
