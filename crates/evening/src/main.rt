// Plays an evening in which the later transaction commits first, and retells it on a plain book: each call with the book's
// answer next to the store's, and the rows of both at the end.
#![tactic(auto)]

use desks::ROOMY;
use keys::{CardNumber, Score};
use ordered::InOrder;
use rules::{BookCall, Call, Row};
use seeing::Level;
use telling::Teller;

// Insert and update: two short words for the long list below.
fn insert(name: u64, key: u32, value: i32) -> Call<CardNumber, Score> {
    Call::Book(name, BookCall::Insert(CardNumber(key), Score(value)))
}

fn update(name: u64, key: u32, value: i32) -> Call<CardNumber, Score> {
    Call::Book(name, BookCall::Update(CardNumber(key), Score(value)))
}

// The transaction 1 commits two cards at stamp 2. Then 3 and 4 change a card each; 4, which has the higher end stamp, commits first.
fn calls() -> [Call<CardNumber, Score>; 19] {
    [
        Call::Begin(Level::Serializable),
        insert(1, 10, 5),
        insert(1, 20, 7),
        Call::Prepare(1),
        Call::Validate(1),
        Call::Commit(1),
        Call::Finish(1),
        Call::Begin(Level::Serializable),
        Call::Begin(Level::Serializable),
        update(3, 10, 6),
        update(4, 20, 9),
        Call::Prepare(3),
        Call::Prepare(4),
        Call::Validate(4),
        Call::Commit(4),
        Call::Validate(3),
        Call::Commit(3),
        Call::Finish(4),
        Call::Finish(3),
    ]
}

fn run(rt: &HostRuntime) -> anyhow::Result<()> {
    let heap = rt.alloc();
    let index = InOrder::new(heap, ROOMY.pairs)?;
    let blank = Row {
        key: CardNumber(0),
        value: Score(0),
    };
    let mut teller = Teller::new(heap, index, ROOMY, blank)?;
    println!(rt; "the evening")?;
    teller.play(rt, heap, &calls())?;
    println!(rt; "retold by end stamp")?;
    let book = teller.retell(rt, heap)?;
    println!(rt; "the store at the end")?;
    teller.show_now(rt, CardNumber(0), CardNumber(4294967295))?;
    println!(rt; "the book at the end")?;
    print!(rt; "{book}")?;
    let _ = teller.tell(rt, Call::Tally)?;
    Ok(())
}

fn main(rt: HostRuntime) -> anyhow::Result<()> {
    run(&rt)
}
