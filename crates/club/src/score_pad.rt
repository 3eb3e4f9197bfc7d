// Two phones raise one track. One is refused, begins again and raises what the other left: neither raise is swallowed.
use crate::pieces::{Tracks, read_score, track, write_score};
use desks::ROOMY;
use keys::CardNumber;
use ordered::InOrder;
use rules::Call;
use seeing::Level;
use telling::Teller;

const TRACK: u32 = 1;

// Begins again and raises the track, after a refusal.
fn raise_again(
    rt: &impl Print,
    teller: &mut Tracks<InOrder<CardNumber>>,
    by: i32,
) -> anyhow::Result<()> {
    let name = teller.begin(rt, Level::Serializable)?;
    let score = read_score(rt, teller, name, TRACK)?;
    write_score(rt, teller, name, TRACK, score.saturating_add(by))?;
    teller.settle(rt, name)?;
    Ok(())
}

fn raise_both(rt: &impl Print, teller: &mut Tracks<InOrder<CardNumber>>) -> anyhow::Result<()> {
    println!(rt; "two phones read the track")?;
    let left = teller.begin(rt, Level::Serializable)?;
    let right = teller.begin(rt, Level::Serializable)?;
    let seen_left = read_score(rt, teller, left, TRACK)?;
    let seen_right = read_score(rt, teller, right, TRACK)?;
    println!(rt; "the left raises it by 3, the right by 2")?;
    write_score(rt, teller, left, TRACK, seen_left.saturating_add(3))?;
    let accepted = write_score(rt, teller, right, TRACK, seen_right.saturating_add(2))?;
    teller.settle(rt, left)?;
    if accepted {
        teller.settle(rt, right)?;
    } else {
        let _ = teller.tell(rt, Call::Finish(right))?;
        println!(rt; "the right tries again")?;
        raise_again(rt, teller, 2)?;
    }
    Ok(())
}

pub fn play(rt: &HostRuntime) -> anyhow::Result<()> {
    let index = InOrder::new(rt.alloc(), ROOMY.pairs)?;
    let mut teller = Teller::new(rt.alloc(), index, ROOMY, track(0, 0))?;
    teller.set_up(rt, &[track(TRACK, 10)])?;
    raise_both(rt, &mut teller)?;
    println!(rt; "both raises are in")?;
    let name = teller.begin(rt, Level::Snapshot)?;
    read_score(rt, &mut teller, name, TRACK)?;
    teller.settle(rt, name)?;
    let _ = teller.tell(rt, Call::Tally)?;
    Ok(())
}
