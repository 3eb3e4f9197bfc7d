#![tactic(auto)]

// Tests of both indexes over both kinds of key: edges, a table of cases, and a random walk beside a plain list of pairs.
#[cfg(test)]
mod edges;
#[cfg(test)]
mod table;
#[cfg(test)]
mod walk;
