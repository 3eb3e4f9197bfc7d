// The faults of a script: a fault of a line's text, or a refusal of the store, with the line where it came up.
ghost use Rattle.std.specs.Prelude.{◌≡◌, ◌++◌, IfOk, string_bytes, OnOk};
ghost use Rattle.script.specs.Faults.{of_text, of_store, line_fault_text, fault_said, goes_on};

use keys::{CardNumber, Score};
use rules::{Call, Refusal, Row};
use script_lines::LineFault;
use script_text::{say_fault, say_reply};
use std::alloc::AllocError;

/// What a fault of a script is: the text of its line, or a call that the store refuses.
#[derive(Clone, Copy)]
pub(crate) enum Cause {
    Text(LineFault),
    Store(Call<CardNumber, Score>, Refusal),
}

#[derive(Clone, Copy)]
pub(crate) struct ScriptFault {
    pub line: usize,
    pub cause: Cause,
}

/// A fault of a line beside its number.
// A fault is put beside what it gains and turned by `From` at the `?`, as a rule of the project.
#[derive(Clone, Copy)]
pub(crate) struct AtLine {
    pub line: usize,
    pub fault: LineFault,
}

/// A refusal beside the line and its call.
#[derive(Clone, Copy)]
pub(crate) struct AtCall {
    pub line: usize,
    pub call: Call<CardNumber, Score>,
    pub refusal: Refusal,
}

impl From<AtLine> for ScriptFault {
    ghost from_gives = { λ b r. r ≡ of_text b };

    fn from(at: AtLine) -> ScriptFault {
        ScriptFault {
            line: at.line,
            cause: Cause::Text(at.fault),
        }
    }
}

impl From<AtCall> for ScriptFault {
    ghost from_gives = { λ b r. r ≡ of_store b };

    fn from(at: AtCall) -> ScriptFault {
        ScriptFault {
            line: at.line,
            cause: Cause::Store(at.call, at.refusal),
        }
    }
}

// What is wrong with a line.
pub(crate) fn say_line_fault(
    out: &mut String,
    line: usize,
    fault: LineFault,
) -> Result<(), AllocError>
    ensures { OnOk result (string_bytes out.new ≡ string_bytes out.old ++ line_fault_text line fault) }
{
    match fault {
        LineFault::Word(field) => say_fault(out, line, field, "word"),
        LineFault::Count => say_fault(out, line, 0, "count"),
        LineFault::Number(field) => say_fault(out, line, field, "number"),
    }
}

// A fault, and whether the script goes on after it.
pub(crate) fn say_script_fault(
    out: &mut String,
    fault: ScriptFault,
    rows: &[Row<CardNumber, Score>],
) -> Result<bool, AllocError>
    ensures { IfOk result (λ goes. (string_bytes out.new ≡ string_bytes out.old ++ fault_said fault rows.now) × (goes ≡ goes_on fault.cause)) }
{
    match fault.cause {
        Cause::Text(e) => {
            say_line_fault(out, fault.line, e)?;
            Ok(false)
        }
        Cause::Store(call, refusal) => {
            say_reply(out, fault.line, &call, &Err(refusal), rows)?;
            Ok(true)
        }
    }
}
