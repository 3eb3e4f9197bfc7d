// Tables and indexes that were changed behind the store's back: a call that reaches what is wrong is refused (7), any other
// is answered, and the transaction goes on.
use crate::script::{
    BACKWARD, BEGIN, DELETE_10, INSERT_10, INSERT_15, READ_10, READ_15, READ_20, SCAN, Step,
    UPDATE_10, UPDATE_20, play_both,
};
use desks::{ROOMY, Room};
use keys::Score;
use rules::{Answer, Call};
use seeing::{Begin, End};
use std::test::Fail;

// The entry of 10 is free. The keys (6) come before that. In validation what was noted first counts: the version of 10 is
// not there (7), or that of 20 is no longer visible (15).
const FREED: [Step; 54] = [
    Step::Fresh,
    Step::Tell(BEGIN, 0),
    Step::Free(10),
    Step::Tell(Call::Book(3, BACKWARD), 6),
    Step::Tell(Call::Book(3, READ_10), 7),
    Step::Tell(Call::Book(3, SCAN), 7),
    Step::Tell(Call::Book(3, INSERT_10), 7),
    Step::Tell(Call::Book(3, UPDATE_10), 7),
    Step::Tell(Call::Book(3, DELETE_10), 7),
    Step::Tell(Call::Book(3, READ_20), 0),
    Step::Tell(Call::Prepare(3), 0),
    Step::Tell(Call::Validate(3), 0),
    Step::Tell(Call::Commit(3), 0),
    Step::Tell(Call::Finish(3), 0),
    Step::Tell(Call::Sweep, 0),
    // an update of another (8) is not seen before it
    Step::Fresh,
    Step::Tell(BEGIN, 0),
    Step::Tell(BEGIN, 0),
    Step::Tell(Call::Book(3, UPDATE_10), 0),
    Step::Free(10),
    Step::Tell(Call::Book(4, UPDATE_10), 7),
    Step::Tell(Call::Book(4, READ_20), 0),
    Step::Tell(Call::Abort(3), 0),
    Step::Tell(Call::Finish(3), 0),
    Step::Fresh,
    Step::Tell(BEGIN, 0),
    Step::Tell(Call::Book(3, READ_20), 0),
    Step::Tell(Call::Book(3, READ_10), 0),
    Step::Tell(BEGIN, 0),
    Step::Tell(Call::Book(4, UPDATE_20), 0),
    Step::Tell(Call::Prepare(4), 0),
    Step::Tell(Call::Validate(4), 0),
    Step::Tell(Call::Commit(4), 0),
    Step::Free(10),
    Step::Tell(Call::Prepare(3), 0),
    Step::Tell(Call::Validate(3), 15),
    Step::Tell(Call::Finish(3), 0),
    Step::Fresh,
    Step::Tell(BEGIN, 0),
    Step::Tell(Call::Book(3, READ_10), 0),
    Step::Tell(Call::Book(3, READ_20), 0),
    Step::Tell(BEGIN, 0),
    Step::Tell(Call::Book(4, UPDATE_20), 0),
    Step::Tell(Call::Prepare(4), 0),
    Step::Tell(Call::Validate(4), 0),
    Step::Tell(Call::Commit(4), 0),
    Step::Free(10),
    Step::Tell(Call::Prepare(3), 0),
    Step::Tell(Call::Validate(3), 7),
    Step::Tell(Call::Validate(3), 7),
    Step::Tell(Call::Commit(3), 4),
    Step::Tell(Call::Abort(3), 0),
    Step::Tell(Call::Finish(3), 0),
    Step::Tell(Call::Tally, 0),
];

#[test]
fn freed(rt: HostRuntime) -> Result<(), Fail> {
    play_both(&rt, rt.alloc(), ROOMY, &FREED)
}

// Rows (9), notes (10), version entries (11) and the index (12) are short, and a pair leads to another key (7).
const SHORT: [Step; 7] = [
    Step::Fresh,
    Step::Tell(BEGIN, 0),
    Step::PutAt(15, 10),
    Step::Tell(Call::Book(3, SCAN), 7),
    Step::Tell(Call::Book(3, READ_15), 7),
    Step::Tell(Call::Book(3, INSERT_15), 7),
    Step::Tell(Call::Book(3, READ_10), 10),
];

#[test]
fn wrong_and_short(rt: HostRuntime) -> Result<(), Fail> {
    let room = Room {
        versions: 2,
        notes: 0,
        rows: 1,
        pairs: 3,
    };
    play_both(&rt, rt.alloc(), room, &SHORT)
}

// Entries under another key, and entries as another store may have left them.
const STRANGE: [Step; 41] = [
    Step::Fresh,
    Step::Tell(BEGIN, 0),
    Step::Swap(10, 20),
    Step::Tell(Call::Book(3, READ_10), 7),
    Step::Tell(Call::Book(3, READ_20), 7),
    Step::Tell(Call::Book(3, SCAN), 7),
    Step::Says(Call::Book(3, READ_15), Answer::Absent),
    Step::Swap(10, 20),
    Step::Says(Call::Book(3, SCAN), Answer::Number(2)),
    // names that nobody has
    Step::Overwrite(10, Begin::Owner(99), End::Open),
    Step::Tell(Call::Book(3, READ_10), 7),
    Step::Overwrite(10, Begin::Stamp(1), End::Owner(99)),
    Step::Tell(Call::Book(3, UPDATE_10), 7),
    Step::Overwrite(10, Begin::Owner(18446744073709551615), End::Owner(0)),
    Step::Tell(Call::Book(3, INSERT_10), 7),
    Step::Tell(Call::Sweep, 0),
    // stamps
    Step::Overwrite(10, Begin::Stamp(0), End::Open),
    Step::Says(Call::Book(3, READ_10), Answer::Value(Score(9))),
    Step::Overwrite(
        10,
        Begin::Stamp(18446744073709551615),
        End::Stamp(18446744073709551615),
    ),
    Step::Says(Call::Book(3, READ_10), Answer::Absent),
    Step::Says(Call::Book(3, DELETE_10), Answer::Absent),
    Step::Says(Call::Sweep, Answer::Number(0)),
    // its own name: the version is its own
    Step::Overwrite(10, Begin::Owner(3), End::Open),
    Step::Says(Call::Book(3, UPDATE_10), Answer::Done),
    Step::Says(Call::Book(3, DELETE_10), Answer::Done),
    Step::Says(Call::Book(3, READ_10), Answer::Absent),
    Step::Tell(Call::Abort(3), 0),
    Step::Tell(Call::Finish(3), 0),
    Step::Tell(BEGIN, 0),
    // a stamp to come
    Step::Overwrite(20, Begin::Stamp(18446744073709551615), End::Open),
    Step::Says(Call::Book(4, READ_20), Answer::Absent),
    Step::Says(Call::Book(4, UPDATE_20), Answer::Absent),
    Step::Tell(Call::Prepare(4), 0),
    Step::Tell(Call::Validate(4), 0),
    Step::Tell(Call::Commit(4), 0),
    Step::Tell(Call::Finish(4), 0),
    Step::Tell(BEGIN, 0),
    Step::Overwrite(20, Begin::Stamp(1), End::Stamp(3)),
    Step::Says(Call::Book(6, SCAN), Answer::Number(0)),
    Step::Says(Call::Sweep, Answer::Number(2)),
    Step::Says(Call::Book(6, SCAN), Answer::Number(0)),
];

#[test]
fn strange_entries(rt: HostRuntime) -> Result<(), Fail> {
    play_both(&rt, rt.alloc(), ROOMY, &STRANGE)
}

// An index that says more than the table: a place outside it, the entry of another key, a free one. And one that says
// less: the row is not seen, and can be inserted again; a version that was noted is still reached.
const INDEX: [Step; 44] = [
    Step::Fresh,
    Step::Tell(BEGIN, 0),
    Step::Put(10, 100),
    Step::Tell(Call::Book(3, READ_10), 7),
    Step::Tell(Call::Book(3, READ_20), 0),
    Step::Put(15, 18446744073709551615),
    Step::Tell(Call::Book(3, INSERT_15), 7),
    Step::Tell(Call::Book(3, SCAN), 7),
    Step::Tell(Call::Sweep, 0),
    Step::Fresh,
    Step::Tell(BEGIN, 0),
    Step::PutAt(15, 10),
    Step::Tell(Call::Book(3, READ_15), 7),
    Step::Tell(Call::Book(3, SCAN), 7),
    Step::Tell(Call::Book(3, READ_10), 0),
    Step::Remove(15),
    Step::Says(Call::Book(3, SCAN), Answer::Number(2)),
    Step::PutFree(15),
    Step::Tell(Call::Book(3, INSERT_15), 7),
    Step::Remove(15),
    Step::Says(Call::Book(3, INSERT_15), Answer::Done),
    Step::Tell(Call::Prepare(3), 0),
    Step::PutFree(12),
    Step::Tell(Call::Validate(3), 7),
    Step::Remove(12),
    Step::Tell(Call::Validate(3), 0),
    Step::Tell(Call::Commit(3), 0),
    Step::Tell(Call::Finish(3), 0),
    Step::Fresh,
    Step::Tell(BEGIN, 0),
    Step::Tell(Call::Book(3, READ_10), 0),
    Step::Remove(10),
    Step::Says(Call::Book(3, READ_10), Answer::Absent),
    Step::Says(Call::Book(3, UPDATE_10), Answer::Absent),
    Step::Says(Call::Book(3, INSERT_10), Answer::Done),
    Step::Says(Call::Book(3, UPDATE_10), Answer::Done),
    Step::Tell(Call::Prepare(3), 0),
    Step::Tell(Call::Validate(3), 0),
    Step::Tell(Call::Commit(3), 0),
    Step::Tell(Call::Finish(3), 0),
    Step::Tell(Call::Sweep, 0),
    Step::Tell(BEGIN, 0),
    Step::Remove(20),
    Step::Says(Call::Book(5, SCAN), Answer::Number(1)),
];

#[test]
fn strange_indexes(rt: HostRuntime) -> Result<(), Fail> {
    play_both(&rt, rt.alloc(), ROOMY, &INDEX)
}
