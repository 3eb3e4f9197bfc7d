// The test of one version, and of all that the notes lead to.
ghost use Rattle.std.specs.Prelude.{◌≡◌, ◌<◌, length, OnOk};
ghost use Rattle.seeing.specs.Changing.{own_work};
ghost use Rattle.rules.specs.Index.{meaning};
ghost use Rattle.rules.specs.Validating.{passes, tests_for, test_all};
ghost use Rattle.validating.specs.Tested.{judged, one_test};

use crate::order::next_note;
use crate::walk::{covered, must_show};
use index::Index;
use keys::Key;
use rules::{Entry, Note, Refusal};
use seeing::{Sight, Slots, Version};
use slots::marked;
use walks::reach_one;

// The transaction made or ended the version.
fn is_own_work<K: Copy, V: Copy>(name: u64, version: &Version<K, V>) -> bool
    ensures { result ≡ own_work name version.now }
{
    version.is_made_by(name) || version.end.is_owned_by(name)
}

// The version is visible at the end stamp if it has to be, or was so at the begin stamp, and only then.
fn is_as_before<K: Copy, V: Copy>(at_end: &Sight<'_>, show: bool, version: &Version<K, V>) -> bool
    ensures { result ≡ passes at_end.now.slots.now at_end.now.reader at_end.now.time show version.now }
{
    let at_begin = Sight::at_begin(at_end.slots, at_end.reader);
    at_end.sees(version) == (show || at_begin.sees(version))
}

// The marks of those to wait on once the version is tested for the transaction at its end stamp; none if it tells against it.
fn judge<K: Copy, V: Copy>(
    at_end: &Sight<'_>,
    show: bool,
    version: &Version<K, V>,
    marks: [bool; 64],
) -> Option<[bool; 64]>
    ensures { result ≡ judged at_end.now.slots.now at_end.now.reader at_end.now.time show version.now marks }
{
    if is_own_work(at_end.reader, version) {
        return Some(marks);
    }
    if is_as_before(at_end, show, version) {
        return Some(marked(at_end.slots, at_end.waits_for(version), marks));
    }
    None
}

/// The test of the version that a pair leads to.
pub(crate) fn test_one<K: Key, V: Copy>(
    at_end: &Sight<'_>,
    versions: &[Entry<Version<K, V>>],
    show: bool,
    key: K,
    place: usize,
    marks: [bool; 64],
) -> Result<Option<[bool; 64]>, Refusal>
    ensures says { result ≡ one_test K.Key.order at_end.now.slots.now versions.now at_end.now.reader at_end.now.time show (key, place) marks }
    ensures inside { OnOk result (place < length versions.now) }
{
    let (_, version) = reach_one(at_end.slots, versions, key, place)?;
    Ok(judge(at_end, show, &version, marks))
}

/// The tests of all that the transaction's notes cover, in the order made, up to the first version that tells against it.
pub(crate) fn test_notes<I: Index, V: Copy>(
    slots: &Slots,
    versions: &[Entry<Version<I::Key, V>>],
    notes: &[Entry<Note<I::Key>>],
    index: &I,
    name: u64,
    end: u64,
    waits: [bool; 64],
) -> Result<Option<[bool; 64]>, Refusal>
    ensures { result ≡ test_all I.Key.Key.order slots.now versions.now name end (tests_for I.Key.Key.order (meaning I.Key.Key.order (I.pairs index.now) (I.limit index.now)) name notes.now) waits }
{
    let at_end = Sight {
        slots,
        reader: name,
        time: end,
    };
    let mut marks = waits;
    let mut last = None;
    // Not a `for`: the notes are searched one by one in the order made, and the loop is left by its label.
    let verdict = 'notes: loop {
        let Some((place, note)) = next_note(notes, name, last) else {
            break 'notes Some(marks);
        };
        let show = must_show(note.noted);
        'pairs: for (key, at) in covered(index, note.noted) {
            match test_one(&at_end, versions, show, key, at, marks)? {
                Some(next) => marks = next,
                None => break 'notes None,
            }
        }
        last = Some((note.number, place));
    };
    Ok(verdict)
}
