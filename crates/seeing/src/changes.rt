// What a version says of a change to its key, and what it becomes by a change or a finish.
ghost use Rattle.std.specs.Prelude.{◌≡◌};
ghost use Rattle.seeing.specs.Changing.{known, not_writable, too_new, made_by, altered, settle};

use crate::{Begin, End, Phase, Slots, Version, find, phase_of};

impl Begin {
    /// A version with that Begin and End tells against an insert by the transaction.
    pub fn is_too_new(self, end: End, slots: &Slots, name: u64) -> bool
        ensures { result ≡ too_new slots.now name self end }
    {
        match self {
            Begin::Stamp(s) => name < s && !end.is_at(s),
            Begin::Owner(m) => m != name && phase_of(slots, m).is_busy_after(name),
        }
    }
}

impl End {
    /// It names no transaction that is unknown.
    pub fn is_known(self, slots: &Slots) -> bool
        ensures { result ≡ known slots.now self }
    {
        match self {
            End::Owner(m) => find(slots, m).is_some(),
            End::Stamp(_) | End::Open => true,
        }
    }

    /// A version with that End is not to be changed: the End is a stamp, or names one that is not aborted.
    pub fn is_locked(self, slots: &Slots) -> bool
        ensures { result ≡ not_writable slots.now self }
    {
        match self {
            End::Stamp(_) => true,
            End::Owner(m) => !phase_of(slots, m).is_aborted(),
            End::Open => false,
        }
    }
}

impl<K: Copy, V: Copy> Version<K, V> {
    /// The transaction made it.
    pub fn is_made_by(&self, name: u64) -> bool
        ensures { result ≡ made_by name self.now }
    {
        self.begin == Begin::Owner(name)
    }

    /// The transaction's own version with the new value, or ended by it where there is none.
    pub fn altered(self, name: u64, new: Option<V>) -> Version<K, V>
        ensures { result ≡ altered name new self }
    {
        match new {
            None => Version {
                end: End::Owner(name),
                ..self
            },
            Some(value) => Version { value, ..self },
        }
    }

    /// The version once the transaction, in that phase, is finished; `last` is the last stamp given.
    pub fn settled(self, last: u64, name: u64, phase: Phase) -> Version<K, V>
        ensures { result ≡ settle last name phase self }
    {
        match phase {
            Phase::Active | Phase::Preparing(_) | Phase::Validated(_) => self,
            Phase::Committed(e) => Version {
                begin: self.begin.settled(name, e),
                end: self.end.settled(name, End::Stamp(e)),
                ..self
            },
            Phase::Aborted if self.is_made_by(name) => Version {
                begin: Begin::Stamp(last),
                end: End::Stamp(last),
                ..self
            },
            Phase::Aborted => Version {
                end: self.end.settled(name, End::Open),
                ..self
            },
        }
    }
}
