// A whole play: an open and then calls, one after the other, with the law after each.
// Tables and index are parameters of their own, lent as slices, shared where a call only reads: a rule of the project.
#![tactic(auto)]

ghost use Rattle.std.specs.Prelude.{◌≡◌, min, length, Some, slice_set};
ghost use Rattle.rules.specs.Index.{meaning};
ghost use Rattle.rules.specs.Worlds.{around};
ghost use Rattle.rules.specs.declared.Call.TheVariants as call;
ghost use Rattle.calls.specs.Promises.{Answers, Begins, GoesOn};
ghost use Rattle.playing.specs.Plays.{PlaysOn, Plays};

use calls::TableStore;
use index::Index;
use rules::{Answer, Call, Entry, Note, Refusal, Row};
use seeing::Version;
use tables::set_at;

// How many calls there is room for.
fn room(calls: usize, answers: usize) -> usize
    ensures { result ≡ min calls answers }
{
    calls.min(answers)
}

// Carries out the call and writes its answer at the place.
fn play_one<I: Index, V: Copy>(
    store: &mut TableStore,
    versions: &mut [Entry<Version<I::Key, V>>],
    notes: &mut [Entry<Note<I::Key>>],
    index: &mut I,
    rows: &mut [Row<I::Key, V>],
    call: Call<I::Key, V>,
    answers: &mut [Option<Result<Answer<V>, Refusal>>],
    place: usize,
) -> Result<Answer<V>, Refusal>
    ensures writes { answers.new ≡ slice_set answers.old place (Some result) }
    ensures answers { Answers I.Key.Key.order (around store.old.store versions.old notes.old (meaning I.Key.Key.order (I.pairs index.old) (I.limit index.old)) rows.old) (around store.new.store versions.new notes.new (meaning I.Key.Key.order (I.pairs index.new) (I.limit index.new)) rows.new) call result }
    ensures law { GoesOn I.Key.Key.order (around store.old.store versions.old notes.old (meaning I.Key.Key.order (I.pairs index.old) (I.limit index.old)) rows.old) (around store.new.store versions.new notes.new (meaning I.Key.Key.order (I.pairs index.new) (I.limit index.new)) rows.new) call result }
{
    let answer = store.perform(versions, notes, index, rows, call);
    set_at(answers, place, Some(answer));
    answer
}

// As many calls as there is room for, in order, each answer at its place; how many.
fn play_on<I: Index, V: Copy>(
    store: &mut TableStore,
    versions: &mut [Entry<Version<I::Key, V>>],
    notes: &mut [Entry<Note<I::Key>>],
    index: &mut I,
    rows: &mut [Row<I::Key, V>],
    calls: &[Call<I::Key, V>],
    answers: &mut [Option<Result<Answer<V>, Refusal>>],
) -> usize
    ensures counts { result ≡ min (length calls.now) (length answers.old) }
    ensures plays { PlaysOn I.Key.Key.order (around store.old.store versions.old notes.old (meaning I.Key.Key.order (I.pairs index.old) (I.limit index.old)) rows.old) (around store.new.store versions.new notes.new (meaning I.Key.Key.order (I.pairs index.new) (I.limit index.new)) rows.new) calls.now answers.old answers.new result }
{
    let count = room(calls.len(), answers.len());
    // The answer is written by its place: of what a zip with `iter_mut` writes the proof is told nothing.
    for (place, call) in calls[..count].iter().enumerate() {
        let _answer = play_one(store, versions, notes, index, rows, *call, answers, place);
    }
    count
}

// Opens the store at the stamp.
fn open_at<I: Index, V: Copy>(
    store: &mut TableStore,
    versions: &mut [Entry<Version<I::Key, V>>],
    notes: &mut [Entry<Note<I::Key>>],
    index: &mut I,
    rows: &mut [Row<I::Key, V>],
    stamp: u64,
) -> Result<Answer<V>, Refusal>
    ensures answers { Answers I.Key.Key.order (around store.old.store versions.old notes.old (meaning I.Key.Key.order (I.pairs index.old) (I.limit index.old)) rows.old) (around store.new.store versions.new notes.new (meaning I.Key.Key.order (I.pairs index.new) (I.limit index.new)) rows.new) (call.Open stamp) result }
    ensures opens { Begins I.Key.Key.order (around store.new.store versions.new notes.new (meaning I.Key.Key.order (I.pairs index.new) (I.limit index.new)) rows.new) (call.Open stamp) result }
{
    store.perform(versions, notes, index, rows, Call::Open(stamp))
}

/// Opens the store at the stamp and carries out the calls in order, as many as there is room for in the answers table,
/// where each answer is written at its call's place; how many. If the open is refused, nothing is done.
pub fn play<I: Index, V: Copy>(
    store: &mut TableStore,
    versions: &mut [Entry<Version<I::Key, V>>],
    notes: &mut [Entry<Note<I::Key>>],
    index: &mut I,
    rows: &mut [Row<I::Key, V>],
    stamp: u64,
    calls: &[Call<I::Key, V>],
    answers: &mut [Option<Result<Answer<V>, Refusal>>],
) -> Result<usize, Refusal>
    ensures { Plays I.Key.Key.order stamp (around store.old.store versions.old notes.old (meaning I.Key.Key.order (I.pairs index.old) (I.limit index.old)) rows.old) (around store.new.store versions.new notes.new (meaning I.Key.Key.order (I.pairs index.new) (I.limit index.new)) rows.new) calls.now answers.old answers.new result }
{
    open_at(store, versions, notes, index, rows, stamp)?;
    Ok(play_on(store, versions, notes, index, rows, calls, answers))
}
