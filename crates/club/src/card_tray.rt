// A card moves from place to place; whoever looks meanwhile finds it in exactly one place.
use crate::pieces::{Board, card, lying, turned};
use desks::ROOMY;
use keys::BoardPlace;
use ordered::InOrder;
use rules::{BookCall, Call};
use seeing::Level;
use telling::Teller;

fn look(rt: &impl Print, teller: &mut Board<InOrder<BoardPlace>>, name: u64) -> anyhow::Result<()> {
    teller.show(
        rt,
        name,
        BoardPlace::at(0, 0, 0),
        BoardPlace::at(255, 255, 255),
    )
}

// One looks between the two halves of the move, another once the move has its end stamp and is not committed yet.
fn move_and_look(rt: &impl Print, teller: &mut Board<InOrder<BoardPlace>>) -> anyhow::Result<()> {
    println!(rt; "the card is taken up and laid down, and one looks in between")?;
    let mover = teller.begin(rt, Level::Serializable)?;
    let _ = teller.ask(rt, mover, BookCall::Delete(BoardPlace::at(0, 1, 0)))?;
    let early = teller.begin(rt, Level::Snapshot)?;
    look(rt, teller, early)?;
    let _ = teller.ask(
        rt,
        mover,
        BookCall::Insert(BoardPlace::at(1, 2, 3), turned(card(7, 2))),
    )?;
    look(rt, teller, early)?;
    teller.settle(rt, early)?;
    println!(rt; "the move gets its end stamp, and another looks")?;
    let _ = teller.tell(rt, Call::Prepare(mover))?;
    let late = teller.begin(rt, Level::Snapshot)?;
    look(rt, teller, late)?;
    let _ = teller.tell(rt, Call::Validate(mover))?;
    look(rt, teller, late)?;
    end_both(rt, teller, mover, late)
}

// Who looked at a move that is not committed has to wait for it.
fn end_both(
    rt: &impl Print,
    teller: &mut Board<InOrder<BoardPlace>>,
    mover: u64,
    late: u64,
) -> anyhow::Result<()> {
    let _ = teller.tell(rt, Call::Prepare(late))?;
    let _ = teller.tell(rt, Call::Validate(late))?;
    let _ = teller.tell(rt, Call::Commit(late))?;
    println!(rt; "the move is committed")?;
    let _ = teller.tell(rt, Call::Commit(mover))?;
    let _ = teller.tell(rt, Call::Commit(late))?;
    let _ = teller.tell(rt, Call::Finish(mover))?;
    let _ = teller.tell(rt, Call::Finish(late))?;
    Ok(())
}

pub fn play(rt: &HostRuntime) -> anyhow::Result<()> {
    let index = InOrder::new(rt.alloc(), ROOMY.pairs)?;
    let blank = lying(BoardPlace::at(0, 0, 0), card(0, 0));
    let mut teller = Teller::new(rt.alloc(), index, ROOMY, blank)?;
    teller.set_up(rt, &[lying(BoardPlace::at(0, 1, 0), card(7, 2))])?;
    move_and_look(rt, &mut teller)?;
    teller.show_now(rt, BoardPlace::at(0, 0, 0), BoardPlace::at(255, 255, 255))?;
    let _ = teller.tell(rt, Call::Sweep)?;
    Ok(())
}
