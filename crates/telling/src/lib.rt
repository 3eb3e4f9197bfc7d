// What a program tells of a table: each call with its answer, the transcript, and its retelling on a plain book.
#![tactic(auto)]

mod book;
mod teller;
mod transcript;

pub use book::Book;
pub use teller::{Teller, print_rows};
pub use transcript::{Asked, Transcript, Turn};
