// An index that holds its pairs in one Vec, in order of key and then place: one type for every kind of key.
#![tactic(auto)]

mod calls;
mod in_order;
mod search;

pub use in_order::InOrder;
