// The wall screen scans several times in one snapshot transaction while others commit: it shows one moment.
use crate::pieces::{Tracks, track, write_score};
use chains::Chains;
use desks::ROOMY;
use keys::{CardNumber, Score};
use rules::{BookCall, Call};
use seeing::Level;
use telling::Teller;

fn scan(rt: &impl Print, teller: &mut Tracks<Chains<CardNumber>>, name: u64) -> anyhow::Result<()> {
    teller.show(rt, name, CardNumber(0), CardNumber(4294967295))
}

fn score(
    rt: &impl Print,
    teller: &mut Tracks<Chains<CardNumber>>,
    number: u32,
    score: i32,
) -> anyhow::Result<()> {
    let name = teller.begin(rt, Level::Serializable)?;
    write_score(rt, teller, name, number, score)?;
    teller.settle(rt, name)?;
    Ok(())
}

fn replace(
    rt: &impl Print,
    teller: &mut Tracks<Chains<CardNumber>>,
    gone: u32,
    new: u32,
) -> anyhow::Result<()> {
    let name = teller.begin(rt, Level::Serializable)?;
    let _ = teller.ask(rt, name, BookCall::Delete(CardNumber(gone)))?;
    let _ = teller.ask(rt, name, BookCall::Insert(CardNumber(new), Score(1)))?;
    teller.settle(rt, name)?;
    Ok(())
}

pub fn play(rt: &HostRuntime) -> anyhow::Result<()> {
    let index = Chains::new(rt.alloc(), ROOMY.pairs)?;
    let mut teller = Teller::new(rt.alloc(), index, ROOMY, track(0, 0))?;
    teller.set_up(rt, &[track(1, 10), track(257, 20), track(2, 30)])?;
    println!(rt; "the screen begins")?;
    let screen = teller.begin(rt, Level::Snapshot)?;
    scan(rt, &mut teller, screen)?;
    score(rt, &mut teller, 1, 11)?;
    scan(rt, &mut teller, screen)?;
    replace(rt, &mut teller, 257, 3)?;
    scan(rt, &mut teller, screen)?;
    teller.settle(rt, screen)?;
    println!(rt; "the screen begins anew")?;
    let anew = teller.begin(rt, Level::Snapshot)?;
    scan(rt, &mut teller, anew)?;
    teller.settle(rt, anew)?;
    let _ = teller.tell(rt, Call::Sweep)?;
    Ok(())
}
