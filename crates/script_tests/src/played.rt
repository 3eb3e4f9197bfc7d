// A script beside what it is to print, put together from the entries of transcripts.
use script::run_script;
use std::alloc::Global;
use std::fmt::Write;
use std::process::Abort;
use std::test::Fail;

// The case is told where it fails.
pub fn prints(
    rt: &impl Abort,
    heap: Global,
    script: &[u8],
    expected: &str,
    case: &str,
) -> Result<(), Fail> {
    let said = run_script(heap, script)?;
    for (line, wanted) in said.lines().zip(expected.lines()) {
        assert_eq!(rt; line, wanted, "{case}");
    }
    assert_eq!(rt; said.as_str(), expected, "{case}");
    Ok(())
}

#[derive(Drop)]
pub struct Played {
    heap: Global,
    script: String,
    expected: String,
    line: usize,
}

impl Played {
    pub fn new(heap: Global) -> Result<Played, Fail> {
        Ok(Played {
            heap,
            script: String::new(heap),
            expected: String::from_str(heap, "line,call,answer\n")?,
            line: 0,
        })
    }

    fn add(&mut self, call: &str, answer: &str) -> Result<(), Fail> {
        if !call.is_empty() {
            self.line = self.line.saturating_add(1);
            self.script.push_str(call)?;
            self.script.push('\n')?;
        }
        if !answer.is_empty() {
            writeln!(self.expected, "{},{answer}", self.line)?;
        }
        Ok(())
    }

    // `FROM TO ENTRY`, with each number for the star.
    fn repeat(&mut self, times: &str) -> Result<(), Fail> {
        let Some((from, rest)) = times.split_once(' ') else {
            return Err(Fail::new("no end of the numbers"));
        };
        let Some((to, entry)) = rest.split_once(' ') else {
            return Err(Fail::new("no entry"));
        };
        for n in from.parse::<u32>()?..to.parse::<u32>()? {
            let number = format!(in self.heap; "{n}")?;
            let filled = entry.replace(self.heap, '*', number.as_str())?;
            self.enter(filled.as_str())?;
        }
        Ok(())
    }

    fn enter(&mut self, entry: &str) -> Result<(), Fail> {
        let Some((call, answer)) = entry.split_once('|') else {
            return Err(Fail::new("no answer"));
        };
        self.add(call, answer)
    }

    pub fn play(&mut self, entries: &str) -> Result<(), Fail> {
        for entry in entries.lines() {
            if let Some(times) = entry.strip_prefix("* ") {
                self.repeat(times)?;
            } else if !entry.starts_with('#') {
                self.enter(entry)?;
            }
        }
        Ok(())
    }

    pub fn check(&self, rt: &impl Abort, case: &str) -> Result<(), Fail> {
        prints(
            rt,
            self.heap,
            self.script.as_bytes(),
            self.expected.as_str(),
            case,
        )
    }
}
