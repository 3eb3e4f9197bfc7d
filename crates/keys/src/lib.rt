// Kinds of key, with the order, the equality and the hash number that an index rests on, and two kinds of value.
#![tactic(auto)]

ghost use Rattle.std.specs.Prelude.{◌≡◌, ℕ, Bool};
ghost use Rattle.std.specs.declared.cmp.Ordering.{Ordering};
ghost use Rattle.keys.specs.Laws.{KeyLaws, equal_by};
ghost use Rattle.keys.specs.Kinds.{card_order, card_hash, card_laws, place_order, place_hash, place_laws};

use std::cmp::Ordering;
use std::fmt;

/// A kind of key: a total order, an equality that agrees with it, and a hash number.
pub trait Key: Copy {
    /// How two keys compare.
    ghost order: { Self → Self → Ordering };

    /// Whether two keys are equal: the one test of equality for whoever holds keys of this kind.
    ghost equal: { Self → Self → Bool };

    /// The hash number of a key.
    ghost hashed: { Self → ℕ };

    /// What every kind of key owes: a total order, an equality that agrees with it, equal hash numbers of equal keys.
    ghost laws: { KeyLaws order equal hashed };

    fn compare(&self, other: &Self) -> Ordering
        ensures { result ≡ order self.now other.now };

    fn equals(&self, other: &Self) -> bool
        ensures { result ≡ equal self.now other.now };

    fn hash(&self) -> u32
        ensures { result ≡ hashed self.now };
}

/// A card by its number.
#[derive(Clone, Copy, PartialEq, Eq, PartialOrd, Ord, Debug)]
pub struct CardNumber(pub u32);

impl Key for CardNumber {
    ghost order = { card_order };

    ghost equal = { equal_by card_order };

    ghost hashed = { card_hash };

    ghost laws = { card_laws };

    fn compare(&self, other: &CardNumber) -> Ordering {
        self.0.cmp(&other.0)
    }

    fn equals(&self, other: &CardNumber) -> bool {
        self.0 == other.0
    }

    fn hash(&self) -> u32 {
        let CardNumber(number) = *self;
        number
    }
}

impl fmt::Display for CardNumber {
    fn fmt<W: fmt::Write>(&self, f: &mut fmt::Formatter<W>) -> fmt::Result {
        write!(f, "{}", self.0)
    }
}

/// A place on the board, compared by seat, then zone, then slot.
#[derive(Clone, Copy, PartialEq, Eq, PartialOrd, Ord, Debug)]
pub struct BoardPlace {
    pub seat: u8,
    pub zone: u8,
    pub slot: u8,
}

impl BoardPlace {
    pub fn at(seat: u8, zone: u8, slot: u8) -> BoardPlace
        ensures { result ≡ record { seat = seat; zone = zone; slot = slot } }
    {
        BoardPlace { seat, zone, slot }
    }
}

impl Key for BoardPlace {
    ghost order = { place_order };

    ghost equal = { equal_by place_order };

    ghost hashed = { place_hash };

    ghost laws = { place_laws };

    fn compare(&self, other: &BoardPlace) -> Ordering {
        self.cmp(other)
    }

    fn equals(&self, other: &BoardPlace) -> bool {
        self == other
    }

    fn hash(&self) -> u32 {
        u32::from(self.seat) * 65536 + u32::from(self.zone) * 256 + u32::from(self.slot)
    }
}

impl fmt::Display for BoardPlace {
    fn fmt<W: fmt::Write>(&self, f: &mut fmt::Formatter<W>) -> fmt::Result {
        write!(f, "{}.{}.{}", self.seat, self.zone, self.slot)
    }
}

/// The value of a score track.
#[derive(Clone, Copy, PartialEq, Eq, Debug)]
pub struct Score(pub i32);

impl fmt::Display for Score {
    fn fmt<W: fmt::Write>(&self, f: &mut fmt::Formatter<W>) -> fmt::Result {
        write!(f, "{}", self.0)
    }
}

/// The value of a card on the board.
#[derive(Clone, Copy, PartialEq, Eq, Debug)]
pub struct Card {
    pub face: u16,
    pub counters: u8,
    pub turned: bool,
}

/// The face and the counters, and whether the card is turned.
impl fmt::Display for Card {
    fn fmt<W: fmt::Write>(&self, f: &mut fmt::Formatter<W>) -> fmt::Result {
        let turned = if self.turned { " turned" } else { "" };
        write!(f, "card {}+{}{turned}", self.face, self.counters)
    }
}
