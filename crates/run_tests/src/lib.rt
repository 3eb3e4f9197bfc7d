#![tactic(auto)]

// Random runs of the store beside a plain book.
#[cfg(test)]
mod book;
#[cfg(test)]
mod draws;
#[cfg(test)]
mod record;
#[cfg(test)]
mod runs;
