// Notes of serializable transactions.
ghost use Rattle.std.specs.Prelude.{◌≡◌, map, if◌then◌else◌, None};
ghost use Rattle.seeing.specs.Phases.{is_serializable};
ghost use Rattle.rules.specs.BookRules.{noting};
ghost use Rattle.rules.specs.TableRules.{not_of, without_note};
ghost use Rattle.tables.specs.Places.{pick};
ghost use Rattle.tables.specs.Steps.{Gives};

use crate::{free_place, replace};
use rules::{Entry, Note, Noted, Refusal};
use seeing::{Level, Transaction};

// What is to be noted: nothing, unless the transaction is serializable.
fn if_serializable<K: Copy>(level: Level, what: Option<Noted<K>>) -> Option<Noted<K>>
    ensures { result ≡ (if is_serializable level then what else None) }
{
    what.filter(|_| level.is_serializable())
}

/// The note that a serializable transaction makes, in a free entry; the number of its notes then.
pub fn make_note<K: Copy>(
    notes: &mut [Entry<Note<K>>],
    hint: usize,
    name: u64,
    t: Transaction,
    what: Option<Noted<K>>,
) -> Result<u64, Refusal>
    ensures { Gives (noting (pick hint notes.old) name t what notes.old) notes.old notes.new result }
{
    let Some(noted) = if_serializable(t.level, what) else {
        return Ok(t.made);
    };
    let place = free_place(notes, hint).ok_or(Refusal::Notes)?;
    let note = Note {
        owner: name,
        number: t.made,
        noted,
    };
    replace(notes, place, note);
    Ok(t.made.saturating_add(1))
}

fn without_note<K: Copy>(name: u64, entry: &Entry<Note<K>>) -> Entry<Note<K>>
    ensures { result ≡ without_note name entry.now }
{
    Entry::holding(entry.get().filter(|note| note.owner != name))
}

/// The transaction's notes are freed.
#[tactic(auto, using(crate::proofs::Mapping::mapped_more, crate::proofs::Mapping::mapped_all))]
pub fn free_notes<K: Copy>(notes: &mut [Entry<Note<K>>], name: u64)
    ensures { notes.new ≡ map (without_note name) notes.old }
{
    for entry in notes.iter_mut() {
        *entry = without_note(name, entry);
    }
}
