// Lines of the output. Where one is refused for want of memory, part of it may stand in the text.
ghost use Rattle.std.specs.Prelude.{◌≡◌, ◌++◌, Some, string_bytes, OnOk};
ghost use Rattle.script_text.specs.Texts.{heading_text, fault_text, answer_fields, joined, rows_text, reply_text};

use crate::words::{call_word, rows_of};
use keys::{CardNumber, Score};
use rules::{Answer, Call, Refusal, Row};
use std::alloc::AllocError;
use std::fmt;

/// The first line of the output.
pub fn say_heading(out: &mut String) -> Result<(), AllocError>
    ensures { OnOk result (string_bytes out.new ≡ string_bytes out.old ++ heading_text) }
{
    out.push_str("line,call,answer\n")
}

/// A faulty line of the script: which of its fields is at fault, and how.
pub fn say_fault(out: &mut String, line: usize, field: usize, kind: &str) -> Result<(), AllocError>
    ensures { OnOk result (string_bytes out.new ≡ string_bytes out.old ++ fault_text line field kind.now) }
{
    writeln!(out, "{line},fault,{field},{kind}")
}

/// What a call comes to, printed as fields with commas between them.
#[derive(Clone, Copy)]
struct Outcome(Result<Answer<Score>, Refusal>);

impl fmt::Display for Outcome {
    ghost output = { λ o. Some (joined (answer_fields o.0)) };

    fn fmt<W: fmt::Write>(&self, f: &mut fmt::Formatter<W>) -> fmt::Result {
        match self.0 {
            Ok(answer @ (Answer::Done | Answer::Present | Answer::Absent)) => {
                f.write_str(answer.word())
            }
            Ok(Answer::Value(Score(score))) => write!(f, "{score}"),
            Ok(Answer::Stamp(stamp)) => write!(f, "{stamp}"),
            Ok(Answer::Number(number)) => write!(f, "{number}"),
            Ok(Answer::Tallied(commits, aborts)) => write!(f, "{commits},{aborts}"),
            Err(refusal) => match refusal.carried() {
                Some(carried) => write!(f, "refused,{},{carried}", refusal.number()),
                None => write!(f, "refused,{}", refusal.number()),
            },
        }
    }
}

fn say_rows(
    out: &mut String,
    line: usize,
    rows: &[Row<CardNumber, Score>],
) -> Result<(), AllocError>
    ensures { OnOk result (string_bytes out.new ≡ string_bytes out.old ++ rows_text line rows.now) }
{
    for row in rows {
        writeln!(out, "{line},row,{},{}", row.key.0, row.value.0)?;
    }
    Ok(())
}

/// A call of the script with its answer or refusal, and after a scan its rows, which stand first in the row table.
pub fn say_reply(
    out: &mut String,
    line: usize,
    call: &Call<CardNumber, Score>,
    reply: &Result<Answer<Score>, Refusal>,
    rows: &[Row<CardNumber, Score>],
) -> Result<(), AllocError>
    ensures { OnOk result (string_bytes out.new ≡ string_bytes out.old ++ reply_text line call.now reply.now rows.now) }
{
    writeln!(out, "{line},{},{}", call_word(call), Outcome(*reply))?;
    say_rows(out, line, rows_of(call, reply, rows))
}
