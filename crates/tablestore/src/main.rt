// Reads a script from standard input and prints what the store answers.
#![tactic(auto)]

use script::run_script;
use std::io::Read;

/// One byte more than the longest script, so that a longer one is told from it.
const READ: u64 = 65_537;

fn run(rt: &HostRuntime) -> anyhow::Result<()> {
    let mut script = Vec::new(rt.alloc());
    rt.stdin().take(READ).read_to_end(&mut script)?;
    rt.print(run_script(rt.alloc(), &script)?)?;
    Ok(())
}

fn main(rt: HostRuntime) -> anyhow::Result<()> {
    run(&rt)
}
