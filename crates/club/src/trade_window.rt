// A trade changes both purses or neither.
use crate::pieces::{Tracks, read_score, track, write_score};
use chains::Chains;
use desks::ROOMY;
use keys::CardNumber;
use rules::Call;
use seeing::Level;
use telling::Teller;

const BUYER: u32 = 11;

const SELLER: u32 = 12;

// Moves the price from purse to purse; the transaction is still open.
fn pay(
    rt: &impl Print,
    teller: &mut Tracks<Chains<CardNumber>>,
    price: i32,
) -> anyhow::Result<u64> {
    let name = teller.begin(rt, Level::Serializable)?;
    let buyer = read_score(rt, teller, name, BUYER)?;
    let seller = read_score(rt, teller, name, SELLER)?;
    write_score(rt, teller, name, BUYER, buyer.saturating_sub(price))?;
    write_score(rt, teller, name, SELLER, seller.saturating_add(price))?;
    Ok(name)
}

fn show_purses(rt: &impl Print, teller: &mut Tracks<Chains<CardNumber>>) -> anyhow::Result<()> {
    teller.show_now(rt, CardNumber(BUYER), CardNumber(SELLER))
}

pub fn play(rt: &HostRuntime) -> anyhow::Result<()> {
    let index = Chains::new(rt.alloc(), ROOMY.pairs)?;
    let mut teller = Teller::new(rt.alloc(), index, ROOMY, track(0, 0))?;
    teller.set_up(rt, &[track(BUYER, 30), track(SELLER, 12)])?;
    println!(rt; "a trade is called off")?;
    let off = pay(rt, &mut teller, 5)?;
    let _ = teller.tell(rt, Call::Abort(off))?;
    let _ = teller.tell(rt, Call::Finish(off))?;
    show_purses(rt, &mut teller)?;
    println!(rt; "a trade goes through")?;
    let through = pay(rt, &mut teller, 4)?;
    teller.settle(rt, through)?;
    show_purses(rt, &mut teller)?;
    let _ = teller.tell(rt, Call::Tally)?;
    Ok(())
}
