// Files a deck of cards in an index: the same actions over both indexes and both kinds of key, each printed on a line.
#![tactic(auto)]

use chains::Chains;
use index::{Index, Put, pairs_between};
use keys::{BoardPlace, CardNumber, Key};
use ordered::InOrder;
use std::fmt::Display;
use std::io;

// The handle is lent to each function anew: a struct of handle and index would only rename the two.
fn file_one<K: Key + Display + Drop, I: Index<Key = K>>(
    rt: &impl Print,
    index: &mut I,
    key: K,
    place: usize,
) -> io::Result<()> {
    match index.put(key, place) {
        Ok(Put::Added) => println!(rt; "put {key} at {place}: added"),
        Ok(Put::Present) => println!(rt; "put {key} at {place}: present"),
        Err(fault) => println!(rt; "put {key} at {place}: full, {} pairs fit", fault.capacity),
    }
}

fn look_up<K: Key + Display + Drop, I: Index<Key = K>>(
    rt: &impl Print,
    index: &I,
    key: K,
) -> io::Result<()> {
    match index.next_place(key, 0) {
        Some(place) => println!(rt; "{key} lies at {place}"),
        None => println!(rt; "{key} lies nowhere"),
    }
}

fn move_one<K: Key + Display + Drop, I: Index<Key = K>>(
    rt: &impl Print,
    index: &mut I,
    key: K,
    from: usize,
    to: usize,
) -> io::Result<()> {
    if index.remove(key, from) {
        println!(rt; "remove {key} from {from}: removed")?;
    } else {
        println!(rt; "remove {key} from {from}: not there")?;
    }
    file_one(rt, index, key, to)
}

fn next_card<K: Key + Display + Drop, I: Index<Key = K>>(
    rt: &impl Print,
    index: &I,
    key: K,
) -> io::Result<()> {
    match index.next_key(key, true) {
        Some(next) => println!(rt; "after {key} comes {next}"),
        None => println!(rt; "after {key} comes none"),
    }
}

// The pairs from lower to upper, by key and then place.
fn list<K: Key + Display + Drop, I: Index<Key = K>>(
    rt: &impl Print,
    index: &I,
    lower: K,
    upper: K,
) -> io::Result<()> {
    for (key, place) in pairs_between(index, lower, upper) {
        println!(rt; "  {key} at {place}")?;
    }
    Ok(())
}

// The deck, in no order.
struct Deck<K> {
    highest: K,
    lowest: K,
    moved: K,
    second: K,
    middle: K,
}

// Five cards, and room for six pairs.
fn file_deck<K: Key + Display + Drop, I: Index<Key = K>>(
    rt: &impl Print,
    index: &mut I,
    deck: Deck<K>,
) -> io::Result<()> {
    let Deck {
        highest,
        lowest,
        moved,
        second,
        middle,
    } = deck;
    file_one(rt, index, highest, 0)?;
    file_one(rt, index, lowest, 10)?;
    file_one(rt, index, moved, 20)?;
    file_one(rt, index, second, 30)?;
    file_one(rt, index, middle, 40)?;
    move_about(rt, index, moved)?;
    next_card(rt, index, lowest)?;
    next_card(rt, index, highest)?;
    file_one(rt, index, second, 99)?;
    file_one(rt, index, moved, 7)?;
    println!(rt; "from {lowest} to {highest}:")?;
    list(rt, index, lowest, highest)?;
    index.clear();
    look_up(rt, index, moved)?;
    next_card(rt, index, lowest)
}

// A card that lies at 20 is filed again, looked up and moved, to 7 and then, from where it no longer is, to 8.
fn move_about<K: Key + Display + Drop, I: Index<Key = K>>(
    rt: &impl Print,
    index: &mut I,
    key: K,
) -> io::Result<()> {
    file_one(rt, index, key, 20)?;
    look_up(rt, index, key)?;
    move_one(rt, index, key, 20, 7)?;
    look_up(rt, index, key)?;
    move_one(rt, index, key, 20, 8)
}

fn cards() -> Deck<CardNumber> {
    Deck {
        highest: CardNumber(4294967295),
        lowest: CardNumber(0),
        moved: CardNumber(261),
        second: CardNumber(5),
        middle: CardNumber(40),
    }
}

fn places() -> Deck<BoardPlace> {
    Deck {
        highest: BoardPlace::at(4, 0, 0),
        lowest: BoardPlace::at(0, 0, 0),
        moved: BoardPlace::at(1, 2, 3),
        second: BoardPlace::at(0, 2, 3),
        middle: BoardPlace::at(1, 2, 0),
    }
}

fn run(rt: &HostRuntime) -> anyhow::Result<()> {
    println!(rt; "cards in order")?;
    file_deck(rt, &mut InOrder::new(rt.alloc(), 6)?, cards())?;
    println!(rt; "cards in chains")?;
    file_deck(rt, &mut Chains::new(rt.alloc(), 6)?, cards())?;
    println!(rt; "places in order")?;
    file_deck(rt, &mut InOrder::new(rt.alloc(), 6)?, places())?;
    println!(rt; "places in chains")?;
    file_deck(rt, &mut Chains::new(rt.alloc(), 6)?, places())?;
    Ok(())
}

fn main(rt: HostRuntime) -> anyhow::Result<()> {
    run(&rt)
}
