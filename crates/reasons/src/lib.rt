// The reason of a refusal in words, for people: a type for each kind of reason, which prints itself. Proved safe and ending;
// the words are tied to no definition, and tests/words compares them.
#![tactic(auto)]

mod cycles;
pub mod graphs;
mod lines;
pub mod tables;
pub mod texts;
