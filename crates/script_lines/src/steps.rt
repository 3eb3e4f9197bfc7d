// A call's line: its word, and the fields that the word asks for.
ghost use Rattle.std.specs.Prelude.{◌≡◌};
ghost use Rattle.std.specs.Option.{option_map};
ghost use Rattle.script_lines.specs.Cuts.{fields_of};
ghost use Rattle.script_lines.specs.Steps.{plainly, begin_of, step_of, parsed};

use crate::fields::{no_field, one_field, three_fields, two_fields};
use crate::lines::cut_field;
use crate::words::{CallWord, level_of, word_of};
use crate::{LineFault, Step};

// A level that is none is told before a wrong count.
fn begin_step<'a>(rest: Option<&'a [u8]>) -> Result<Step<'a>, LineFault>
    ensures { plainly result ≡ begin_of (fields_of (option_map (λ x. x.now) rest.entry)) }
{
    let first = cut_field(rest.ok_or(LineFault::Count)?);
    level_of(first.front).ok_or(LineFault::Word(2))?;
    one_field(rest).map(|level| Step::Begin { level })
}

// The step of a word and what follows its comma.
fn step_of<'a>(word: CallWord, rest: Option<&'a [u8]>) -> Result<Step<'a>, LineFault>
    ensures { plainly result ≡ step_of word (fields_of (option_map (λ x. x.now) rest.entry)) }
{
    // Each word has a case of its own with fields of its own: a table of functions would say no less.
    match word {
        CallWord::Begin => begin_step(rest),
        CallWord::Read => two_fields(rest).map(|(transaction, key)| Step::Read {
            transaction,
            key,
        }),
        CallWord::Scan => three_fields(rest).map(|(transaction, lower, upper)| Step::Scan {
            transaction,
            lower,
            upper,
        }),
        CallWord::Insert => three_fields(rest).map(|(transaction, key, score)| Step::Insert {
            transaction,
            key,
            score,
        }),
        CallWord::Update => three_fields(rest).map(|(transaction, key, score)| Step::Update {
            transaction,
            key,
            score,
        }),
        CallWord::Delete => {
            two_fields(rest).map(|(transaction, key)| Step::Delete { transaction, key })
        }
        CallWord::Prepare => one_field(rest).map(|transaction| Step::Prepare { transaction }),
        CallWord::Validate => one_field(rest).map(|transaction| Step::Validate { transaction }),
        CallWord::Commit => one_field(rest).map(|transaction| Step::Commit { transaction }),
        CallWord::Abort => one_field(rest).map(|transaction| Step::Abort { transaction }),
        CallWord::Finish => one_field(rest).map(|transaction| Step::Finish { transaction }),
        CallWord::Sweep => no_field(rest).map(|()| Step::Sweep),
        CallWord::Tally => no_field(rest).map(|()| Step::Tally),
    }
}

/// The step that a line asks for, or what is wrong with the line.
pub fn read_step<'a>(line: &'a [u8]) -> Result<Step<'a>, LineFault>
    ensures { plainly result ≡ parsed line.now }
{
    let first = cut_field(line);
    let word = word_of(first.front).ok_or(LineFault::Word(1))?;
    step_of(word, first.rest)
}
