// An index of 256 chains, one for each remainder of the key's hash number: one type for every kind of key.
#![tactic(auto)]

mod arena;
mod calls;
mod chains;
mod changes;
mod steps;

pub use chains::Chains;
