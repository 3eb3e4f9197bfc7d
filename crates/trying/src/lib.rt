// Ways to disturb a desk, for the tests, and what the tests and the bench ask with.
#![tactic(auto)]

use index::Index;
use keys::{CardNumber, Score};
use rules::{Entry, Refusal, Row};
use seeing::Version;

/// A desk of scores under card numbers.
pub type Desk<I> = desks::Desk<CardNumber, Score, I>;

/// What a call comes to.
pub type Said = desks::Said<Score>;

/// What fills a row table.
pub const BLANK: Row<CardNumber, Score> = Row {
    key: CardNumber(0),
    value: Score(0),
};

/// What a caller may do to the tables and the index behind the store's back.
#[derive(Clone, Copy)]
pub enum Trouble {
    Free(usize),
    Hold(usize, Version<CardNumber, Score>),
    Swap(usize, usize),
    Put(CardNumber, usize),
    Remove(CardNumber, usize),
}

/// Makes the trouble; a place outside the table is left alone.
pub fn disturb<I: Index<Key = CardNumber> + Drop>(desk: &mut Desk<I>, trouble: Trouble) {
    match trouble {
        Trouble::Free(place) => hold(desk, place, None),
        Trouble::Hold(place, version) => hold(desk, place, Some(version)),
        Trouble::Swap(one, other) => {
            if one < desk.versions.len() && other < desk.versions.len() {
                desk.versions.swap(one, other);
            }
        }
        Trouble::Put(key, place) => {
            let _ = desk.index.put(key, place);
        }
        Trouble::Remove(key, place) => {
            desk.index.remove(key, place);
        }
    }
}

fn hold<I: Index<Key = CardNumber> + Drop>(
    desk: &mut Desk<I>,
    place: usize,
    held: Option<Version<CardNumber, Score>>,
) {
    if let Some(entry) = desk.versions.get_mut(place) {
        *entry = Entry::holding(held);
    }
}

/// The number of the refusal; 0 for none.
// A number, since the tests keep their expected values.
pub fn number_of(said: Said) -> u8 {
    said.err().map_or(0, Refusal::number)
}
