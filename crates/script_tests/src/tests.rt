// The tests; their cases stand in the other files.
use crate::cases::CASES;
use crate::full::FULL;
use crate::lines::LINES;
use crate::played::{Played, prints};
use crate::positions::{POSITIONS, SET_UP};
use crate::refusals::REFUSALS;
use crate::scripts::{LISTED, LISTING, SHORT};
use index::IndexFault;
use keys::{CardNumber, Score};
use rules::{Call, Refusal};
use script_text::say_reply;
use std::alloc::{AllocError, Global};
use std::process::Abort;
use std::test::Fail;

// Handle, heap and script are lent to each function anew: a struct of them would only rename them.
// Each case under both indexes.
fn all(rt: &impl Abort, heap: Global, before: &str, cases: &str, end: &str) -> Result<(), Fail> {
    for entries in cases.split(end) {
        for first in ["hash|", "ordered|"] {
            let mut played = Played::new(heap)?;
            played.play(first)?;
            played.play(before)?;
            played.play(entries)?;
            played.check(rt, entries)?;
        }
    }
    Ok(())
}

#[test]
fn transcripts(rt: HostRuntime) -> Result<(), Fail> {
    all(&rt, rt.alloc(), "", CASES, "\n\n")?;
    all(&rt, rt.alloc(), "", FULL, "\n\n")?;
    all(&rt, rt.alloc(), SET_UP, POSITIONS, "\n\n")?;
    all(&rt, rt.alloc(), SET_UP, REFUSALS, "\n\n")?;
    all(&rt, rt.alloc(), "", LINES, "\n")
}

fn short(rt: &impl Abort, heap: Global, case: &str) -> Result<(), Fail> {
    let text = case.replace(heap, ';', "\n")?;
    let Some((script, lines)) = text.split_once('|') else {
        return Err(Fail::new("no answer"));
    };
    let expected = format!(in heap; "line,call,answer\n{lines}")?;
    prints(rt, heap, script.as_bytes(), expected.as_str(), case)
}

#[test]
fn scripts(rt: HostRuntime) -> Result<(), Fail> {
    for first in ["hash\n", "ordered\n"] {
        let script = format!(in rt.alloc(); "{first}{LISTING}")?;
        prints(&rt, rt.alloc(), script.as_bytes(), LISTED, first)?;
    }
    for case in SHORT.lines() {
        short(&rt, rt.alloc(), case)?;
    }
    let odd = b"ordered\nbegin,ser\nread,1,\xff\n";
    prints(
        &rt,
        rt.alloc(),
        odd,
        "line,call,answer\n2,begin,1\n3,fault,3,number\n",
        "a byte above ASCII",
    )
}

// The refusals that no script meets, as they would be printed.
#[test]
fn other_refusals(rt: HostRuntime) -> Result<(), Fail> {
    let call: Call<CardNumber, Score> = Call::Sweep;
    let mut out = String::new(rt.alloc());
    for refusal in [
        Refusal::Lengths,
        Refusal::OpeningStamp,
        Refusal::Version,
        Refusal::Full(1, IndexFault { capacity: 256 }),
        Refusal::LastStamp,
    ] {
        say_reply(&mut out, 7, &call, &Err(refusal), &[])?;
    }
    assert_eq!(rt;
        out.as_str(),
        "7,sweep,refused,1\n7,sweep,refused,2\n7,sweep,refused,7\n7,sweep,refused,12,256\n7,sweep,refused,14\n"
    );
    Ok(())
}

// A script of that length whose last number begins with many zeros.
fn padded(heap: Global, head: &str, length: usize) -> Result<String, AllocError> {
    let mut script = String::from_str(heap, head)?;
    for _ in head.len()..length {
        script.push('0')?;
    }
    Ok(script)
}

#[test]
fn longest(rt: HostRuntime) -> Result<(), Fail> {
    for first in ["hash", "ordered"] {
        let head = format!(in rt.alloc(); "{first}\nbegin,snap\ninsert,1,0,5\nread,1,")?;
        let script = padded(rt.alloc(), head.as_str(), 65536)?;
        let expected = "line,call,answer\n2,begin,1\n3,insert,done\n4,read,5\n";
        prints(&rt, rt.alloc(), script.as_bytes(), expected, first)?;
        let longer = padded(rt.alloc(), head.as_str(), 65537)?;
        prints(
            &rt,
            rt.alloc(),
            longer.as_bytes(),
            "0,fault,0,size\n",
            first,
        )?;
    }
    Ok(())
}
