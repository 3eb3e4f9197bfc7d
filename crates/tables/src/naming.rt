// The transaction that a call names.
ghost use Rattle.std.specs.Prelude.{◌≡◌, ◌<◌};
ghost use Rattle.tables.specs.Naming.{through, placed, if_sound, located};

use crate::Sizes;
use rules::{Refusal, Store};
use seeing::{Transaction, find};

/// A transaction in its slot.
#[derive(Clone, Copy)]
pub struct Seated {
    pub slot: usize,
    pub transaction: Transaction,
    pub ghost inside: { slot < 64 },
}

impl Seated {
    /// What its phase gives, unless that is nothing or the transaction is doomed.
    pub fn sound<T: Copy>(&self, given: Option<T>) -> Result<T, Refusal>
        ensures { result ≡ if_sound self.now.transaction given }
    {
        let given = given.ok_or(Refusal::Phase)?;
        if self.transaction.doomed {
            return Err(Refusal::Doomed);
        }
        Ok(given)
    }
}

/// The transaction of that name.
pub fn named(store: &Store, sizes: Sizes, name: u64) -> Result<Seated, Refusal>
    ensures { through (λ x. (x.slot, x.transaction)) result ≡ placed store.now sizes.versions sizes.notes sizes.capacity name }
{
    if !sizes.is_in_order(store.opened) {
        return Err(Refusal::Lengths);
    }
    let Some((slot, transaction)) = find(&store.slots, name) else {
        return Err(Refusal::Unknown);
    };
    Ok(Seated { slot, transaction })
}

/// The transaction of that name, if it is active and not doomed.
pub fn active(store: &Store, sizes: Sizes, name: u64) -> Result<Seated, Refusal>
    ensures { through (λ x. (x.slot, x.transaction)) result ≡ located store.now sizes.versions sizes.notes sizes.capacity name }
{
    let one = named(store, sizes, name)?;
    one.sound(one.transaction.phase.is_active().then_some(()))?;
    Ok(one)
}
