// The call validate: the notes of a transaction in the order made, and the versions that each covers.
// Tables and index are parameters of their own, lent as slices, shared where a call only reads: a rule of the project.
#![tactic(auto)]

mod calls;
mod checks;
mod order;
mod walk;

pub use calls::validate;
