// Changes of all entries of a table.
ghost use Rattle.std.specs.Prelude.{◌≡◌, map, length, replicate};
ghost use Rattle.rules.specs.Tables.{emptied};
ghost use Rattle.rules.specs.TableRules.{settle_entry};

use rules::Entry;
use seeing::{Phase, Version};

// A stamp, a name and a phase that only pass through: a struct of them would be taken apart at once.
fn entry_settled<K: Copy, V: Copy>(
    last: u64,
    name: u64,
    phase: Phase,
    entry: &Entry<Version<K, V>>,
) -> Entry<Version<K, V>>
    ensures { result ≡ settle_entry last name phase entry.now }
{
    Entry::holding(
        entry
            .get()
            .map(|version| version.settled(last, name, phase)),
    )
}

/// The transaction, in that phase, is finished: its name becomes stamps in all versions. `last` is the last stamp given.
#[tactic(auto, using(crate::proofs::Mapping::mapped_more, crate::proofs::Mapping::mapped_all))]
pub fn settle_all<K: Copy, V: Copy>(
    versions: &mut [Entry<Version<K, V>>],
    last: u64,
    name: u64,
    phase: Phase,
)
    ensures { versions.new ≡ map (settle_entry last name phase) versions.old }
{
    for entry in versions.iter_mut() {
        *entry = entry_settled(last, name, phase, entry);
    }
}

/// All entries are freed.
pub fn free_all<T: Copy>(table: &mut [Entry<T>])
    ensures { table.new ≡ replicate (length table.old) emptied }
{
    table.fill(Entry::free());
}
