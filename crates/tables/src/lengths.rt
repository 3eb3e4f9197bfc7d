// The lengths of the tables and the capacity.
ghost use Rattle.std.specs.Prelude.{◌≡◌, length};
ghost use Rattle.rules.specs.Checks.{allowed, still_allowed};

use index::Index;
use rules::Lengths;

/// The lengths of the two tables and the capacity of the index that a caller lends.
#[derive(Clone, Copy)]
pub struct Sizes {
    pub versions: usize,
    pub notes: usize,
    pub capacity: usize,
}

impl Sizes {
    pub fn of<I: Index, A, B>(versions: &[A], notes: &[B], index: &I) -> Sizes
        ensures { result ≡ record { versions = length versions.now; notes = length notes.now; capacity = I.limit index.now } }
    {
        Sizes {
            versions: versions.len(),
            notes: notes.len(),
            capacity: index.capacity(),
        }
    }

    /// They are allowed.
    pub fn is_allowed(self) -> bool
        ensures { result ≡ allowed self.versions self.notes self.capacity }
    {
        (1..=65536).contains(&self.versions)
            && self.notes <= 65536
            && (1..=65536).contains(&self.capacity)
    }

    /// They are allowed, and the lengths are those at opening.
    pub fn is_in_order(self, opened: Option<Lengths>) -> bool
        ensures { result ≡ still_allowed opened self.versions self.notes self.capacity }
    {
        let lengths = Lengths {
            versions: self.versions,
            notes: self.notes,
        };
        self.is_allowed() && opened == Some(lengths)
    }
}
