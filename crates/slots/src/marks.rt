// Marks by slot: on whom a transaction waits.
ghost use Rattle.std.specs.Prelude.{◌≡◌};
ghost use Rattle.rules.specs.Lists.{count};
ghost use Rattle.rules.specs.Slots.{mark};

use seeing::{Slots, find};

/// The marks, and besides them that of the one named.
pub fn marked(slots: &Slots, name: Option<u64>, mut waits: [bool; 64]) -> [bool; 64]
    ensures { result ≡ mark slots.now name waits }
{
    if let Some(m) = name
        && let Some((slot, _)) = find(slots, m)
    {
        waits[slot] = true;
    }
    waits
}

/// How many a transaction with those marks waits on.
#[tactic(auto, using(crate::proofs::Seating::counted))]
pub fn count_waits(waits: &[bool; 64]) -> usize
    ensures { result ≡ count (λ b. b) waits.now }
{
    waits.iter().filter(|waited| **waited).count()
}
