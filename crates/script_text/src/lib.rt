// The text that a script's run prints for each call and each faulty line, appended to a `String`.
#![tactic(auto)]

mod lines;
mod words;

pub use lines::{say_fault, say_heading, say_reply};
