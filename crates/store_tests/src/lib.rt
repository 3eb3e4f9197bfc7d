#![tactic(auto)]

// Tests of the store's calls, over both indexes: lengths, each refusal at its place in their order, disturbed tables.
#[cfg(test)]
mod disturbed;
#[cfg(test)]
mod lengths;
#[cfg(test)]
mod refusals;
#[cfg(test)]
mod script;
