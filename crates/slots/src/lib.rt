// The work on the slots of a store: marks by slot, an abort and what it drags along, and the seats.
#![tactic(auto)]

mod aborts;
mod marks;
mod seats;

pub use aborts::abort_one;
pub use marks::{count_waits, marked};
pub use seats::{free_slot, is_past, release};
