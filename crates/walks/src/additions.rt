// New versions, in the table and the index.
ghost use Rattle.std.specs.Prelude.{◌≡◌};
ghost use Rattle.seeing.specs.Changing.{new_version};
ghost use Rattle.rules.specs.Index.{meaning};
ghost use Rattle.rules.specs.BookRules.{adding, adding_if};
ghost use Rattle.tables.specs.Places.{pick};
ghost use Rattle.tables.specs.Steps.{Leaves};
ghost use Rattle.walks.specs.Faults.{full_for};

use crate::FaultFor;
use index::{Index, IndexFault};
use rules::{Entry, Refusal};
use seeing::{Begin, End, Version};
use tables::{free_place, replace};

impl From<FaultFor> for Refusal {
    ghost from_gives = { λ b r. r ≡ full_for b };

    fn from(beside: FaultFor) -> Refusal {
        Refusal::Full(beside.transaction, beside.fault)
    }
}

// The fault, with the transaction beside it.
fn on_behalf(transaction: u64, fault: IndexFault) -> FaultFor
    ensures { result ≡ record { transaction = transaction; fault = fault } }
{
    FaultFor { transaction, fault }
}

// A version that the transaction makes.
// Its parameters are the parts of the version that it makes.
fn new_version<K: Copy, V: Copy>(name: u64, key: K, value: V) -> Version<K, V>
    ensures { result ≡ new_version name key value }
{
    Version {
        key,
        value,
        begin: Begin::Owner(name),
        end: End::Open,
    }
}

/// A new version, in a free entry of the table and in the index; its place.
pub fn add<I: Index, V: Copy>(
    versions: &mut [Entry<Version<I::Key, V>>],
    index: &mut I,
    hint: usize,
    name: u64,
    key: I::Key,
    value: V,
) -> Result<usize, Refusal>
    ensures { Leaves (adding I.Key.Key.order (pick hint versions.old) name key value (versions.old, meaning I.Key.Key.order (I.pairs index.old) (I.limit index.old))) (versions.old, meaning I.Key.Key.order (I.pairs index.old) (I.limit index.old)) (versions.new, meaning I.Key.Key.order (I.pairs index.new) (I.limit index.new)) result }
{
    let Some(place) = free_place(versions, hint) else {
        return Err(Refusal::Versions);
    };
    index
        .put(key, place)
        .map_err(|fault| on_behalf(name, fault))?;
    replace(versions, place, new_version(name, key, value));
    Ok(place)
}

/// A new version of the value, if there is one; the place where the search is to go on.
pub fn add_if<I: Index, V: Copy>(
    versions: &mut [Entry<Version<I::Key, V>>],
    index: &mut I,
    hint: usize,
    name: u64,
    key: I::Key,
    new: Option<V>,
) -> Result<usize, Refusal>
    ensures { Leaves (adding_if I.Key.Key.order (pick hint versions.old) name key new (versions.old, meaning I.Key.Key.order (I.pairs index.old) (I.limit index.old))) (versions.old, meaning I.Key.Key.order (I.pairs index.old) (I.limit index.old)) (versions.new, meaning I.Key.Key.order (I.pairs index.new) (I.limit index.new)) result }
{
    let Some(value) = new else {
        return Ok(hint);
    };
    add(versions, index, hint, name, key, value)
}
