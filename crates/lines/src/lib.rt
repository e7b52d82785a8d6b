//! How calls and answers are printed: the words of a script and its answer lines, and denials in words for a person.
//! The words are a script's, and `runs` stands without them: so each kind is printed through a type of its own.
#![tactic(auto)]

pub mod asked;
pub mod reason;
pub mod reply;
