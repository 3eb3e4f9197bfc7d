// The work on the tables that a caller lends: places, notes, and changes of all entries.
#![tactic(auto)]

mod changes;
mod lengths;
mod naming;
mod notes;
mod places;

pub use changes::{free_all, settle_all};
pub use lengths::Sizes;
pub use naming::{Seated, active, named};
pub use notes::{free_notes, make_note};
pub use places::{free_place, held_at, replace, set_at};
