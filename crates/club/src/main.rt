// Six short evenings at a games club, one for each use of a table; every call is printed with its answer.
#![tactic(auto)]

mod automa;
mod card_tray;
mod journal;
mod pieces;
mod score_pad;
mod trade_window;
mod wall_screen;

fn run(rt: &HostRuntime) -> anyhow::Result<()> {
    println!(rt; "score pad")?;
    score_pad::play(rt)?;
    println!(rt; "card tray")?;
    card_tray::play(rt)?;
    println!(rt; "automa")?;
    automa::play(rt)?;
    println!(rt; "trade window")?;
    trade_window::play(rt)?;
    println!(rt; "wall screen")?;
    wall_screen::play(rt)?;
    println!(rt; "campaign journal")?;
    journal::play(rt)
}

fn main(rt: HostRuntime) -> anyhow::Result<()> {
    run(&rt)
}
