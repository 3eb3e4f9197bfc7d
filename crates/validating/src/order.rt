// The notes of a transaction one after another: by number, and at one number by place.
ghost use Rattle.std.specs.Prelude.{◌≡◌};
ghost use Rattle.validating.specs.Order.{above, is_left, comes_first, sooner, NextLeft};

use rules::{Entry, Note};

// A note of that number and place comes after the last one, which is given by its own.
fn is_above(last: Option<(u64, usize)>, number: u64, place: usize) -> bool
    ensures { result ≡ above last number place }
{
    last.is_none_or(|met| met < (number, place))
}

// The owner made it, and it comes after the last one.
fn is_left<K: Copy>(owner: u64, last: Option<(u64, usize)>, place: usize, note: Note<K>) -> bool
    ensures { result ≡ is_left owner last place note }
{
    note.owner == owner && is_above(last, note.number, place)
}

// It comes before the other one, which stands further on in the table.
fn comes_first<K: Copy>(note: Note<K>, other: Option<(usize, Note<K>)>) -> bool
    ensures { result ≡ comes_first note other }
{
    other.is_none_or(|(_, other)| note.number <= other.number)
}

// The first of the notes left: what the entry at the place holds, or the first of those further on in the table.
fn sooner<K: Copy>(
    owner: u64,
    last: Option<(u64, usize)>,
    place: usize,
    held: Option<Note<K>>,
    first: Option<(usize, Note<K>)>,
) -> Option<(usize, Note<K>)>
    ensures { result ≡ sooner owner last place held first }
{
    held.filter(|note| is_left(owner, last, place, *note) && comes_first(*note, first))
        .map(|note| (place, note))
        .or(first)
}

/// The owner's first note after the last one, with its place.
pub(crate) fn next_note<K: Copy>(
    notes: &[Entry<Note<K>>],
    owner: u64,
    last: Option<(u64, usize)>,
) -> Option<(usize, Note<K>)>
    ensures { NextLeft owner last notes.now result }
{
    // A `for`: as a fold, its closure would be this line with a name for each part.
    let mut first = None;
    for (place, entry) in notes.iter().enumerate().rev() {
        first = sooner(owner, last, place, entry.get(), first);
    }
    first
}
