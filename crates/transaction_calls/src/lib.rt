// The calls that are not about rows: open, begin, prepare, commit, abort, finish, sweep and tally, over a store and what its caller lends.
// Tables and index are parameters of their own, lent as slices, shared where a call only reads: a rule of the project.
#![tactic(auto)]

mod ends;
mod opening;
mod stamps;
mod sweeps;

pub use ends::{abort, commit, finish};
pub use opening::{open, tally};
pub use stamps::{begin, prepare};
pub use sweeps::sweep;

// The largest stamp that is given.
const LARGEST_STAMP: u64 = 9_223_372_036_854_775_806;
