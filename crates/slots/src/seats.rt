// The seats: the lowest free slot, a commit that nobody waits on any more, and what lies before all transactions.
ghost use Rattle.std.specs.Prelude.{◌≡◌, ◌<◌, true, false, map, is_some, IfSome, Some, MatchOption, nat_lt, slice_set};
ghost use Rattle.std.specs.Option.{option_map};
ghost use Rattle.seeing.specs.declared.Transaction.{Transaction};
ghost use Rattle.rules.specs.Lists.{all, used};
ghost use Rattle.rules.specs.Slots.{seat, release, with_waits};
ghost use Rattle.rules.specs.TableRules.{is_past};
ghost use Rattle.slots.specs.Seats.{is_after};

use seeing::{End, Slots, Transaction, find};

fn is_taken(slot: &Option<Transaction>) -> bool
    ensures { result ≡ is_some slot.now }
{
    slot.is_some()
}

/// The lowest free slot, where a new transaction is seated; none if all are taken.
pub fn free_slot(slots: &Slots) -> Option<usize>
    ensures seats { MatchOption result (all is_some slots.now ≡ true) (λ p. (all is_some slots.now ≡ false) × ((t : Transaction) → seat t slots.now ≡ slice_set slots.now p (Some t))) }
    ensures inside { IfSome result (λ p. p < 64) }
{
    slots.iter().position(|slot| !is_taken(slot))
}

// What stands in a slot, waiting no more on the one in `slot`. That this is below 64 is a clause: `find` promises it of a number.
fn without_wait(waiting: Option<Transaction>, slot: usize) -> Option<Transaction>
    requires { slot < 64 }
    ensures { result ≡ option_map (λ u. with_waits (slice_set u.waits slot false) u) waiting }
{
    let t = waiting?;
    let mut waits = t.waits;
    waits[slot] = false;
    Some(Transaction { waits, ..t })
}

// Nobody waits on the one in the slot.
// By index: the array's own `map` and `from_fn` write the whole array several times, and more than doubled the time of a commit.
#[tactic(auto, using(crate::proofs::Filled::mapped_all))]
fn release_slot(slots: &mut Slots, slot: usize)
    requires { slot < 64 }
    ensures { slots.new ≡ map (option_map (λ u. with_waits (slice_set u.waits slot false) u)) slots.old }
{
    for i in 0..64 {
        slots[i] = without_wait(slots[i], slot);
    }
}

/// Nobody waits on the one named.
pub fn release(mut slots: Slots, name: u64) -> Slots
    ensures { result ≡ release name slots }
{
    if let Some((slot, _)) = find(&slots, name) {
        release_slot(&mut slots, slot);
    }
    slots
}

// The slot is free, or its transaction began after the stamp.
fn is_after(slot: &Option<Transaction>, stamp: u64) -> bool
    ensures { result ≡ is_after stamp slot.now }
{
    slot.is_none_or(|t| stamp < t.name)
}

// Every transaction began after the stamp.
fn all_after(slots: &Slots, stamp: u64) -> bool
    ensures { result ≡ all (λ t. nat_lt stamp t.name) (used slots.now) }
{
    slots.iter().all(|slot| is_after(slot, stamp))
}

/// The End is a stamp below every begin stamp in the store.
pub fn is_past(slots: &Slots, end: End) -> bool
    ensures { result ≡ is_past slots.now end }
{
    matches!(end, End::Stamp(s) if all_after(slots, s))
}
