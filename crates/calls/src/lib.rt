// The store that a caller holds, with its fourteen calls; `perform` takes any of them as a value, and its contract has the law over runs.
#![tactic(auto)]

mod changes;
mod ends;
mod perform;
mod reads;
mod starts;
mod store;

pub use store::TableStore;
