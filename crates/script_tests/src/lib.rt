#![tactic(auto)]

// Tests of whole scripts under both indexes: transcripts, single lines, short scripts and the longest one.
#[cfg(test)]
mod cases;
#[cfg(test)]
mod full;
#[cfg(test)]
mod lines;
#[cfg(test)]
mod played;
#[cfg(test)]
mod positions;
#[cfg(test)]
mod refusals;
#[cfg(test)]
mod scripts;
#[cfg(test)]
mod tests;
