// What Begin and End say.
ghost use Rattle.std.specs.Prelude.{◌≡◌};
ghost use Rattle.seeing.specs.Seeing.{as_end};
ghost use Rattle.seeing.specs.Changing.{names, ends_at, settle_begin, settle_end};

use crate::{Begin, End};

/// The Begin read as an End: what holds of the one by its cases holds of the other.
impl From<Begin> for End {
    ghost from_gives = { λ b r. r ≡ as_end b };

    fn from(begin: Begin) -> End {
        match begin {
            Begin::Stamp(s) => End::Stamp(s),
            Begin::Owner(m) => End::Owner(m),
        }
    }
}

impl Begin {
    /// With the stamp in the place of the name.
    pub fn settled(self, name: u64, stamp: u64) -> Begin
        ensures { result ≡ settle_begin name stamp self }
    {
        match self {
            Begin::Owner(m) if m == name => Begin::Stamp(stamp),
            other => other,
        }
    }
}

impl End {
    /// It names the transaction.
    pub fn is_owned_by(self, name: u64) -> bool
        ensures { result ≡ names name self }
    {
        self == End::Owner(name)
    }

    /// It is that stamp.
    pub fn is_at(self, stamp: u64) -> bool
        ensures { result ≡ ends_at stamp self }
    {
        self == End::Stamp(stamp)
    }

    /// With `to` in the place of the name.
    pub fn settled(self, name: u64, to: End) -> End
        ensures { result ≡ settle_end name to self }
    {
        if self.is_owned_by(name) { to } else { self }
    }
}
