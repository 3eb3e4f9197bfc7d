// Runs the scripts of examples/ (its folder data/ has copies) and says of each whether it prints what it should.
#![tactic(auto)]

use script::run_script;
use std::fs;

const NAMES: [&str; 6] = [
    "first-steps",
    "two-phones",
    "phantom",
    "waiting",
    "wall-screen",
    "faulty-line",
];

fn is_as_expected(rt: &HostRuntime, name: &str) -> anyhow::Result<bool> {
    let script = fs::read(rt, format!(in rt.alloc(); "{name}.script")?)?;
    let expected = fs::read(rt, format!(in rt.alloc(); "{name}.out")?)?;
    let said = run_script(rt.alloc(), script.as_slice())?;
    Ok(said.as_bytes() == expected.as_slice())
}

fn run(rt: &HostRuntime) -> anyhow::Result<()> {
    for name in NAMES {
        let verdict = if is_as_expected(rt, name)? {
            "as expected"
        } else {
            "differs"
        };
        println!(rt; "{name}: {verdict}")?;
    }
    Ok(())
}

fn main(rt: HostRuntime) -> anyhow::Result<()> {
    run(&rt)
}
