// The words of a script.
ghost use Rattle.std.specs.Prelude.{◌≡◌};
ghost use Rattle.std.specs.List.{find};
ghost use Rattle.std.specs.Option.{option_map};
ghost use Rattle.std.specs.Str.{bytes_eq};
ghost use Rattle.script_lines.specs.Words.{named, words, levels};
ghost use Rattle.script_lines.specs.Kinds.{kind_of};

use crate::fields::no_field;
use crate::lines::cut_field;
use crate::{IndexKind, LineFault};
use seeing::Level;

/// The word of a call.
#[derive(Clone, Copy)]
pub(crate) enum CallWord {
    Begin,
    Read,
    Scan,
    Insert,
    Update,
    Delete,
    Prepare,
    Validate,
    Commit,
    Abort,
    Finish,
    Sweep,
    Tally,
}

// The words of the calls, of the levels and of the indexes.
const WORDS: [(&[u8], CallWord); 13] = [
    (b"begin", CallWord::Begin),
    (b"read", CallWord::Read),
    (b"scan", CallWord::Scan),
    (b"insert", CallWord::Insert),
    (b"update", CallWord::Update),
    (b"delete", CallWord::Delete),
    (b"prepare", CallWord::Prepare),
    (b"validate", CallWord::Validate),
    (b"commit", CallWord::Commit),
    (b"abort", CallWord::Abort),
    (b"finish", CallWord::Finish),
    (b"sweep", CallWord::Sweep),
    (b"tally", CallWord::Tally),
];

const LEVELS: [(&[u8], Level); 2] = [(b"ser", Level::Serializable), (b"snap", Level::Snapshot)];

const KINDS: [(&[u8], IndexKind); 2] = [
    (b"hash", IndexKind::Hash),
    (b"ordered", IndexKind::Ordered),
];

// What the table has for the word.
fn named<T: Copy>(word: &[u8], table: &[(&[u8], T)]) -> Option<T>
    ensures { result ≡ option_map (λ p. p.1) (find (λ p. bytes_eq word.now p.0.now) table.now) }
{
    table
        .iter()
        .find(|(name, _)| word == *name)
        .map(|&(_, meant)| meant)
}

/// The call that a word names.
// Not a TryFrom: it would need an error type that nobody reads.
pub(crate) fn word_of(word: &[u8]) -> Option<CallWord>
    ensures { result ≡ named word.now words }
{
    named(word, &WORDS)
}

/// The level that a word names.
pub(crate) fn level_of(word: &[u8]) -> Option<Level>
    ensures { result ≡ named word.now levels }
{
    named(word, &LEVELS)
}

/// The index that the first line of a script picks.
pub fn index_kind(line: &[u8]) -> Result<IndexKind, LineFault>
    ensures { result ≡ kind_of line.now }
{
    let first = cut_field(line);
    let kind = named(first.front, &KINDS).ok_or(LineFault::Word(1))?;
    no_field(first.rest)?;
    Ok(kind)
}
