// The store of a script with its tables and its index, and what each line makes of them.
ghost use Rattle.std.specs.Prelude.{◌≡◌, ◌+◌, ◌^◌, ◌<◌, [], ◌++◌, length, is_ok, IfOk, string_bytes, OnOk};
ghost use Rattle.script_lines.specs.Lines.{lines};
ghost use Rattle.script_lines.specs.Calls.{asked};
ghost use Rattle.rules.specs.declared.Call.TheVariants as call;
ghost use Rattle.rules.specs.Index.{meaning};
ghost use Rattle.keys.specs.Kinds.{card_order};
ghost use Rattle.script.specs.Faults.{read_at};
ghost use Rattle.script.specs.Running.{desk_of, fresh_with, carried, result_of, desk_after, LineTold, told};

use crate::faults::{AtCall, AtLine, ScriptFault, say_script_fault};
use calls::TableStore;
use index::Index;
use keys::{CardNumber, Score};
use rules::{Answer, Call, Entry, Note, Refusal, Row};
use script_lines::{call_of, cut_line, read_step};
use script_text::say_reply;
use seeing::Version;
use std::alloc::AllocError;

/// A store with 256 entries in each table, and 64 rows.
// Not the programs' desk: that one has Vecs of any length and no contract.
#[derive(Drop)]
pub(crate) struct Tables<I> {
    store: TableStore,
    versions: [Entry<Version<CardNumber, Score>>; 256],
    notes: [Entry<Note<CardNumber>>; 256],
    rows: [Row<CardNumber, Score>; 64],
    index: I,
}

// What the line asks for, or its fault with its number.
fn read_call(line: usize, bytes: &[u8]) -> Result<Call<CardNumber, Score>, ScriptFault>
    ensures { result ≡ read_at line (asked bytes.now) }
{
    let step = read_step(bytes).map_err(|fault| AtLine { line, fault })?;
    let call = call_of(&step).map_err(|fault| AtLine { line, fault })?;
    Ok(call)
}

impl<I: Index<Key = CardNumber>> Tables<I> {
    /// Before the opening.
    pub(crate) fn new(index: I) -> Tables<I>
        ensures { desk_of I.pairs I.limit result ≡ fresh_with (meaning card_order (I.pairs index) (I.limit index)) }
    {
        let blank = Row {
            key: CardNumber(0),
            value: Score(0),
        };
        Tables {
            store: TableStore::new(),
            versions: [Entry::free(); 256],
            notes: [Entry::free(); 256],
            rows: [blank; 64],
            index,
        }
    }

    // Carries out the call.
    #[tactic(auto, unfolding(crate::specs::Running::carried))]
    fn ask(&mut self, call: Call<CardNumber, Score>) -> Result<Answer<Score>, Refusal>
        ensures { carried (desk_of I.pairs I.limit self.old) call ≡ (desk_of I.pairs I.limit self.new, result) }
    {
        self.store.perform(
            &mut self.versions,
            &mut self.notes,
            &mut self.index,
            &mut self.rows,
            call,
        )
    }

    /// Opens the store at stamp 0.
    pub(crate) fn open(&mut self)
        ensures { desk_of I.pairs I.limit self.new ≡ (carried (desk_of I.pairs I.limit self.old) (call.Open 0)).0 }
    {
        let _ = self.ask(Call::Open(0));
    }

    // Carries out what the line asks for; a fault of its text and a refusal gain its number.
    fn carry_out(
        &mut self,
        line: usize,
        bytes: &[u8],
    ) -> Result<(Call<CardNumber, Score>, Answer<Score>), ScriptFault>
        ensures answers { result ≡ result_of line (desk_of I.pairs I.limit self.old) (asked bytes.now) }
        ensures leaves { desk_of I.pairs I.limit self.new ≡ desk_after (desk_of I.pairs I.limit self.old) (asked bytes.now) }
    {
        let call = read_call(line, bytes)?;
        let answer = self.ask(call).map_err(|refusal| AtCall {
            line,
            call,
            refusal,
        })?;
        Ok((call, answer))
    }

    // Carries out a line and writes what comes of it; whether the script goes on.
    fn tell_line(&mut self, line: usize, bytes: &[u8], out: &mut String) -> Result<bool, AllocError>
        ensures { IfOk result (λ goes. LineTold line (desk_of I.pairs I.limit self.old) (asked bytes.now) (desk_of I.pairs I.limit self.new) (string_bytes out.old) (string_bytes out.new) goes) }
    {
        match self.carry_out(line, bytes) {
            Ok((call, answer)) => {
                say_reply(out, line, &call, &Ok(answer), &self.rows)?;
                Ok(true)
            }
            Err(fault) => say_script_fault(out, fault, &self.rows),
        }
    }

    /// Carries out the lines of the text, of which the first has that number, up to a faulty one, and writes what comes of each.
    // A line's number goes along with the text that is left: an iterator of lines would be one more type, for this loop alone.
    pub(crate) fn tell(
        &mut self,
        first: usize,
        text: &[u8],
        out: &mut String,
    ) -> Result<(), AllocError>
        requires { first + length text.now < 2 ^ 64 }
        ensures { OnOk result (string_bytes out.new ≡ string_bytes out.old ++ told first (desk_of I.pairs I.limit self.old) (lines text.now)) }
    {
        let mut line = first;
        let mut rest = text;
        while !rest.is_empty() {
            let (bytes, after) = cut_line(rest);
            let goes = self.tell_line(line, bytes, out)?;
            if !goes {
                return Ok(());
            }
            line += 1;
            rest = after;
        }
        Ok(())
    }
}
