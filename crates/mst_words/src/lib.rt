//! The command lines of `mst`, and the lines of its shell, as what they ask for.
#![tactic(auto)]

pub mod command;
mod given;
pub mod hash_key;
pub mod help;
pub mod line;
pub mod parse;
pub mod span;
pub mod verb;
pub mod wrong;

pub use command::{Asked, Command, Limits, Selection, StoreCommand, TableCommand, Task, Wanted};
pub use line::{NoWords, words_of};
pub use parse::{help_of, read_words, task_of};
pub use verb::Verb;
pub use wrong::Wrong;
