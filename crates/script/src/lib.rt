// A script, line by line: what each line asks of the store, and the text of what it answers.
#![tactic(auto)]

mod desk;
mod faults;
mod run;

pub use run::run_script;
