// A whole script.
ghost use Rattle.std.specs.Prelude.{◌≡◌, ◌≤◌, [], ◌++◌, length, IfOk, string_bytes, OnOk};
ghost use Rattle.script_lines.specs.Lines.{lines};
ghost use Rattle.script.specs.Running.{opened, told, script_said, script_text, ScriptLaw, first_line, other_lines};

use crate::desk::Tables;
use crate::faults::say_line_fault;
use chains::Chains;
use index::Index;
use keys::CardNumber;
use ordered::InOrder;
use script_lines::{IndexKind, LineFault, cut_line, index_kind};
use script_text::{say_fault, say_heading};
use std::alloc::{AllocError, Global};

/// How long a script may be, and how many pairs its index holds.
const LONGEST: usize = 65_536;

const CAPACITY: usize = 256;

// The lines after the first, with an empty index of their own.
fn run_with<I: Index<Key = CardNumber> + Drop>(
    index: I,
    text: &[u8],
    out: &mut String,
) -> Result<(), AllocError>
    requires { (I.pairs index ≡ []) × (I.limit index ≡ 256) × (length text.now ≤ 65536) }
    ensures { OnOk result (string_bytes out.new ≡ string_bytes out.old ++ told 2 opened (lines text.now)) }
{
    let mut tables = Tables::new(index);
    tables.open();
    tables.tell(2, text, out)
}

// The lines after the first, with the index that it picks; or what is wrong with it.
fn run_lines(
    heap: Global,
    kind: Result<IndexKind, LineFault>,
    text: &[u8],
    out: &mut String,
) -> Result<(), AllocError>
    requires { length text.now ≤ 65536 }
    ensures { OnOk result (string_bytes out.new ≡ string_bytes out.old ++ script_said kind (lines text.now)) }
{
    match kind {
        Ok(IndexKind::Hash) => run_with(Chains::new(heap, CAPACITY)?, text, out),
        Ok(IndexKind::Ordered) => run_with(InOrder::new(heap, CAPACITY)?, text, out),
        Err(fault) => say_line_fault(out, 1, fault),
    }
}

/// What a script prints, whichever index its first line picks; it makes a run that keeps the law.
#[tactic(auto, using(crate::proofs::Lawfully::script_law, crate::proofs::Wholes::rest_within, crate::proofs::Wholes::size_alone))]
pub fn run_script(heap: Global, script: &[u8]) -> Result<String, AllocError>
    ensures text { IfOk result (λ t. string_bytes t ≡ script_text script.now) }
    ensures law { ScriptLaw script.now }
{
    let mut out = String::new(heap);
    if script.len() > LONGEST {
        say_fault(&mut out, 0, 0, "size")?;
        return Ok(out);
    }
    say_heading(&mut out)?;
    let (first, rest) = cut_line(script);
    run_lines(heap, index_kind(first), rest, &mut out)?;
    Ok(out)
}
