// A desk, and the transcript of what was asked of it.
use crate::{Asked, Book, Transcript, Turn};
use anyhow::anyhow;
use desks::{Desk, Room, Said};
use index::Index;
use keys::Key;
use playing::play;
use rules::{Answer, BookCall, Call, Row};
use seeing::Level;
use std::alloc::{AllocError, Global};
use std::fmt::Display;

/// A store, its tables, its index, and what was asked of it so far.
#[derive(Drop)]
pub struct Teller<K, V, I> {
    desk: Desk<K, V, I>,
    transcript: Transcript<K, V>,
}

impl<K: Key + Display + Drop, V: Copy + Display + Drop, I: Index<Key = K> + Drop> Teller<K, V, I> {
    /// Tables with that room, and a store that was never opened. `blank` fills the row table.
    pub fn new(
        heap: Global,
        index: I,
        room: Room,
        blank: Row<K, V>,
    ) -> Result<Teller<K, V, I>, AllocError> {
        Ok(Teller {
            desk: Desk::new(heap, index, room, blank)?,
            transcript: Transcript::new(heap),
        })
    }

    /// Performs the call, prints it with its answer, and records it.
    pub fn tell(&mut self, rt: &impl Print, call: Call<K, V>) -> anyhow::Result<Said<V>> {
        let said = self.desk.perform(call);
        print_call(rt, call, said)?;
        self.transcript.record(call, said)?;
        Ok(said)
    }

    /// Opens the store at stamp 0 and carries out the calls; then prints each with its answer, and records it.
    pub fn play(
        &mut self,
        rt: &impl Print,
        heap: Global,
        calls: &[Call<K, V>],
    ) -> anyhow::Result<()> {
        let mut answers = vec![in heap; None; calls.len()]?;
        let opened = play(
            &mut self.desk.store,
            &mut self.desk.versions,
            &mut self.desk.notes,
            &mut self.desk.index,
            &mut self.desk.rows,
            0,
            calls,
            &mut answers,
        );
        if opened.is_err() {
            return Err(anyhow!("the store was not opened"));
        }
        print_call::<K, V>(rt, Call::Open(0), Ok(Answer::Done))?;
        for (call, answer) in calls.iter().zip(answers.iter()) {
            if let Some(said) = answer {
                print_call(rt, *call, *said)?;
                self.transcript.record(*call, *said)?;
            }
        }
        Ok(())
    }

    /// Opens the store at stamp 0, and commits the rows in one transaction.
    pub fn set_up(&mut self, rt: &impl Print, rows: &[Row<K, V>]) -> anyhow::Result<()> {
        let _ = self.tell(rt, Call::Open(0))?;
        let name = self.begin(rt, Level::Serializable)?;
        for row in rows.iter() {
            let _ = self.ask(rt, name, BookCall::Insert(row.key, row.value))?;
        }
        self.settle(rt, name)?;
        Ok(())
    }

    /// Asks a call on rows for a transaction.
    pub fn ask(
        &mut self,
        rt: &impl Print,
        name: u64,
        call: BookCall<K, V>,
    ) -> anyhow::Result<Said<V>> {
        self.tell(rt, Call::Book(name, call))
    }

    /// Begins a transaction, and gives its name.
    pub fn begin(&mut self, rt: &impl Print, level: Level) -> anyhow::Result<u64> {
        match self.tell(rt, Call::Begin(level))? {
            Ok(Answer::Stamp(name)) => Ok(name),
            _ => Err(anyhow!("no stamp was given")),
        }
    }

    /// Scans, and prints the rows.
    pub fn show(&mut self, rt: &impl Print, name: u64, lower: K, upper: K) -> anyhow::Result<()> {
        match self.ask(rt, name, BookCall::Scan(lower, upper))? {
            Ok(Answer::Number(number)) => print_rows(rt, &self.desk.rows, number),
            _ => Ok(()),
        }
    }

    /// Shows the rows as a snapshot transaction of its own scans them.
    pub fn show_now(&mut self, rt: &impl Print, lower: K, upper: K) -> anyhow::Result<()> {
        let name = self.begin(rt, Level::Snapshot)?;
        self.show(rt, name, lower, upper)?;
        self.settle(rt, name)?;
        Ok(())
    }

    /// Prepares, validates and commits, as far as the store accepts it, and finishes. Says whether it was committed.
    pub fn settle(&mut self, rt: &impl Print, name: u64) -> anyhow::Result<bool> {
        let committed = self.tell(rt, Call::Prepare(name))?.is_ok()
            && self.tell(rt, Call::Validate(name))?.is_ok()
            && self.tell(rt, Call::Commit(name))?.is_ok();
        let _ = self.tell(rt, Call::Finish(name))?;
        Ok(committed)
    }

    /// Plays the committed transactions on a book, one by one in the order of their end stamps.
    pub fn retell(&self, rt: &impl Print, heap: Global) -> anyhow::Result<Book<K, V>> {
        let mut book = Book::new(heap);
        let mut last = 0u64;
        for _ in 0..self.transcript.turns().len() {
            let Some(turn) = self.transcript.next_turn(last) else {
                return Ok(book);
            };
            retell_turn(rt, &mut book, self.transcript.asked(), turn)?;
            last = turn.end;
        }
        Ok(book)
    }
}

fn print_call<K: Display + Copy, V: Display + Copy>(
    rt: &impl Print,
    call: Call<K, V>,
    said: Said<V>,
) -> anyhow::Result<()> {
    match said {
        Ok(answer) => println!(rt; "{call}: {answer}")?,
        Err(refusal) => println!(rt; "{call}: {refusal}")?,
    }
    Ok(())
}

/// Prints the rows at the front of the table, as many as are asked for.
pub fn print_rows<K: Key + Display + Drop, V: Copy + Display + Drop>(
    rt: &impl Print,
    rows: &[Row<K, V>],
    number: usize,
) -> anyhow::Result<()> {
    for Row { key, value } in rows.iter().take(number) {
        println!(rt; "  {key} → {value}")?;
    }
    Ok(())
}

// Each call of the turn, what the book answers, and what the store answered.
fn retell_turn<K: Key + Display + Drop, V: Copy + Display + Drop>(
    rt: &impl Print,
    book: &mut Book<K, V>,
    asked: &[Asked<K, V>],
    turn: Turn,
) -> anyhow::Result<()> {
    println!(rt; "transaction {}, committed at {}", turn.name, turn.end)?;
    for one in asked.iter().filter(|one| one.name == turn.name) {
        let told = book.answer(one.call);
        println!(rt; "  {}: book {told}, store {}", one.call, one.answer)?;
        book.follow(*one)?;
    }
    Ok(())
}
