// Rows and calls of the evenings.
use index::Index;
use keys::{BoardPlace, Card, CardNumber, Score};
use rules::{Answer, BookCall, Row};
use telling::Teller;

/// Cards on the board.
pub type Board<I> = Teller<BoardPlace, Card, I>;

/// Scores on their tracks.
pub type Tracks<I> = Teller<CardNumber, Score, I>;

pub fn track(number: u32, score: i32) -> Row<CardNumber, Score> {
    Row {
        key: CardNumber(number),
        value: Score(score),
    }
}

pub fn card(face: u16, counters: u8) -> Card {
    Card {
        face,
        counters,
        turned: false,
    }
}

pub fn turned(card: Card) -> Card {
    Card {
        turned: !card.turned,
        ..card
    }
}

pub fn lying(key: BoardPlace, value: Card) -> Row<BoardPlace, Card> {
    Row { key, value }
}

/// Reads the score of a track; zero where there is none.
// Handle, teller and transaction are lent to each function anew: a struct of them would only rename them.
pub fn read_score<I: Index<Key = CardNumber> + Drop>(
    rt: &impl Print,
    teller: &mut Tracks<I>,
    name: u64,
    number: u32,
) -> anyhow::Result<i32> {
    match teller.ask(rt, name, BookCall::Read(CardNumber(number)))? {
        Ok(Answer::Value(Score(score))) => Ok(score),
        _ => Ok(0),
    }
}

/// Updates the score of a track, and says whether the store accepted it.
pub fn write_score<I: Index<Key = CardNumber> + Drop>(
    rt: &impl Print,
    teller: &mut Tracks<I>,
    name: u64,
    number: u32,
    score: i32,
) -> anyhow::Result<bool> {
    let said = teller.ask(rt, name, BookCall::Update(CardNumber(number), Score(score)))?;
    Ok(said.is_ok())
}
