// The calls on rows: read, scan, insert, update and delete.
// Tables and index are parameters of their own, lent as slices, shared where a call only reads: a rule of the project.
#![tactic(auto)]

mod answers;
mod changes;
mod checks;
mod reads;
mod scans;

pub use changes::{delete, insert, update};
pub use reads::read;
pub use scans::scan;
