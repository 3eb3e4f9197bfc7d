// Who sees which version, and whom it then waits on.
ghost use Rattle.std.specs.Prelude.{◌≡◌, ◌<◌, IfSome};
ghost use Rattle.std.specs.Option.{option_map};
ghost use Rattle.seeing.specs.Slots.{found, find, seen_phase};
ghost use Rattle.seeing.specs.Seeing.{happened, preparing_other, visible, waits_for};

use crate::{End, Phase, Slots, Transaction, Version};

/// The slot of the transaction of that name, and the transaction.
#[tactic(auto, using(crate::proofs::Searching::found_here, crate::proofs::Searching::named_here, crate::proofs::Searching::found_nowhere, crate::proofs::Searching::named_nowhere))]
pub fn find(slots: &Slots, name: u64) -> Option<(usize, Transaction)>
    ensures finds { result ≡ found slots.now name 0 }
    ensures named { find slots.now name ≡ option_map (λ x. x.1) result }
    ensures inside { IfSome result (λ x. x.0 < 64) }
{
    for (i, slot) in slots.iter().enumerate() {
        if let Some(t) = slot
            && t.name == name
        {
            return Some((i, *t));
        }
    }
    None
}

/// The phase that others take the transaction of that name to be in; an unknown one counts as aborted.
pub fn phase_of(slots: &Slots, name: u64) -> Phase
    ensures { result ≡ seen_phase (find slots.now name) }
{
    find(slots, name).map_or(Phase::Aborted, |(_, t)| t.phase.to_others(t.doomed))
}

/// Whose eyes look at the versions, and at what time.
#[derive(Clone, Copy)]
pub struct Sight<'a> {
    pub slots: &'a Slots,
    pub reader: u64,
    pub time: u64,
}

impl<'a> Sight<'a> {
    /// As the reader sees from its begin stamp on.
    pub fn at_begin(slots: &'a Slots, reader: u64) -> Sight<'a>
        ensures slots { result.slots.now ≡ slots.now }
        ensures reader { result.reader ≡ reader }
        ensures time { result.time ≡ reader }
    {
        Sight {
            slots,
            reader,
            time: reader,
        }
    }

    /// For the reader it has come about by the time.
    pub fn has_happened(&self, end: End) -> bool
        ensures { result ≡ happened self.now.slots.now self.now.reader self.now.time end }
    {
        match end {
            End::Stamp(s) => s <= self.time,
            End::Owner(m) => m == self.reader || phase_of(self.slots, m).is_stamped_by(self.time),
            End::Open => false,
        }
    }

    // The preparing transaction, other than the reader, that it names.
    fn preparing_owner(&self, end: End) -> Option<u64>
        ensures { result ≡ preparing_other self.now.slots.now self.now.reader end }
    {
        match end {
            End::Owner(m) if m != self.reader && phase_of(self.slots, m).is_preparing() => Some(m),
            _ => None,
        }
    }

    /// The reader sees the version at the time: the version has begun and has not ended.
    pub fn sees<K: Copy, V: Copy>(&self, version: &Version<K, V>) -> bool
        ensures { result ≡ visible self.now.slots.now self.now.reader self.now.time version.now }
    {
        self.has_happened(version.begin.into()) && !self.has_happened(version.end)
    }

    /// Whom the reader waits on once it has tested the version at the time.
    pub fn waits_for<K: Copy, V: Copy>(&self, version: &Version<K, V>) -> Option<u64>
        ensures { result ≡ waits_for self.now.slots.now self.now.reader self.now.time version.now }
    {
        let begin = version.begin.into();
        if !self.has_happened(begin) {
            return None;
        }
        if self.has_happened(version.end) {
            self.preparing_owner(version.end)
        } else {
            self.preparing_owner(begin)
        }
    }
}
