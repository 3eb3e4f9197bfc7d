// The automa lists the threats and moves. A threat that it did not list is laid down meanwhile, so its move is refused and
// it lists again: when its move goes in, all threats are on its list.
use crate::pieces::{Board, card, lying};
use chains::Chains;
use desks::ROOMY;
use keys::BoardPlace;
use rules::{BookCall, Call};
use seeing::Level;
use telling::Teller;

// Lists the threats and lays the automa's own card down; the transaction is still open.
fn list_and_move(rt: &impl Print, teller: &mut Board<Chains<BoardPlace>>) -> anyhow::Result<u64> {
    let name = teller.begin(rt, Level::Serializable)?;
    teller.show(rt, name, BoardPlace::at(0, 3, 0), BoardPlace::at(0, 3, 255))?;
    let _ = teller.ask(
        rt,
        name,
        BookCall::Insert(BoardPlace::at(1, 0, 0), card(50, 0)),
    )?;
    Ok(name)
}

fn lay_threat(rt: &impl Print, teller: &mut Board<Chains<BoardPlace>>) -> anyhow::Result<()> {
    let name = teller.begin(rt, Level::Serializable)?;
    let _ = teller.ask(
        rt,
        name,
        BookCall::Insert(BoardPlace::at(0, 3, 2), card(32, 1)),
    )?;
    teller.settle(rt, name)?;
    Ok(())
}

pub fn play(rt: &HostRuntime) -> anyhow::Result<()> {
    let index = Chains::new(rt.alloc(), ROOMY.pairs)?;
    let blank = lying(BoardPlace::at(0, 0, 0), card(0, 0));
    let mut teller = Teller::new(rt.alloc(), index, ROOMY, blank)?;
    let threats = [
        lying(BoardPlace::at(0, 3, 1), card(31, 0)),
        lying(BoardPlace::at(0, 3, 4), card(34, 0)),
    ];
    teller.set_up(rt, &threats)?;
    println!(rt; "the automa lists the threats and moves")?;
    let name = list_and_move(rt, &mut teller)?;
    println!(rt; "a player lays a threat down")?;
    lay_threat(rt, &mut teller)?;
    println!(rt; "the automa's move is to go in")?;
    if !teller.settle(rt, name)? {
        println!(rt; "the automa tries again")?;
        let again = list_and_move(rt, &mut teller)?;
        teller.settle(rt, again)?;
    }
    let _ = teller.tell(rt, Call::Tally)?;
    Ok(())
}
