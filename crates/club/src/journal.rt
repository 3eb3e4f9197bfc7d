// Turns that run at the same time are retold one by one, in the order of their end stamps.
use crate::pieces::{Board, card, lying};
use desks::ROOMY;
use keys::BoardPlace;
use ordered::InOrder;
use rules::{BookCall, Call};
use seeing::Level;
use telling::Teller;

// The first to begin is the last to be prepared.
fn take_turns(rt: &impl Print, teller: &mut Board<InOrder<BoardPlace>>) -> anyhow::Result<()> {
    let scout = teller.begin(rt, Level::Serializable)?;
    let smith = teller.begin(rt, Level::Serializable)?;
    let _ = teller.ask(rt, scout, BookCall::Read(BoardPlace::at(1, 0, 0)))?;
    let _ = teller.ask(
        rt,
        smith,
        BookCall::Update(BoardPlace::at(2, 0, 0), card(2, 5)),
    )?;
    let _ = teller.ask(
        rt,
        scout,
        BookCall::Insert(BoardPlace::at(1, 0, 1), card(3, 0)),
    )?;
    let _ = teller.ask(rt, smith, BookCall::Read(BoardPlace::at(2, 0, 0)))?;
    let _ = teller.ask(
        rt,
        smith,
        BookCall::Insert(BoardPlace::at(2, 0, 0), card(9, 9)),
    )?;
    let _ = teller.ask(rt, scout, BookCall::Delete(BoardPlace::at(1, 0, 0)))?;
    let _ = teller.ask(
        rt,
        scout,
        BookCall::Scan(BoardPlace::at(1, 0, 0), BoardPlace::at(1, 0, 255)),
    )?;
    teller.settle(rt, smith)?;
    teller.settle(rt, scout)?;
    Ok(())
}

// A turn that is called off is not retold.
fn call_off(rt: &impl Print, teller: &mut Board<InOrder<BoardPlace>>) -> anyhow::Result<()> {
    let name = teller.begin(rt, Level::Serializable)?;
    let _ = teller.ask(rt, name, BookCall::Delete(BoardPlace::at(2, 0, 0)))?;
    let _ = teller.tell(rt, Call::Abort(name))?;
    let _ = teller.tell(rt, Call::Finish(name))?;
    Ok(())
}

pub fn play(rt: &HostRuntime) -> anyhow::Result<()> {
    let index = InOrder::new(rt.alloc(), ROOMY.pairs)?;
    let blank = lying(BoardPlace::at(0, 0, 0), card(0, 0));
    let mut teller = Teller::new(rt.alloc(), index, ROOMY, blank)?;
    teller.set_up(
        rt,
        &[
            lying(BoardPlace::at(1, 0, 0), card(1, 0)),
            lying(BoardPlace::at(2, 0, 0), card(2, 0)),
        ],
    )?;
    take_turns(rt, &mut teller)?;
    call_off(rt, &mut teller)?;
    println!(rt; "the journal")?;
    let book = teller.retell(rt, rt.alloc())?;
    println!(rt; "the book at the end")?;
    print!(rt; "{book}")?;
    println!(rt; "the store at the end")?;
    teller.show_now(rt, BoardPlace::at(0, 0, 0), BoardPlace::at(255, 255, 255))
}
