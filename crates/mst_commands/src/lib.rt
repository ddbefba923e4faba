//! The commands of `mst` on one store's file that need no tree in memory: each reads the table of entries, or writes it and the tree in the file together.
#![tactic(auto)]

pub mod backup;
pub mod bounds;
pub mod change;
pub mod clock;
pub mod damage;
pub mod escape;
pub mod fault;
pub mod history;
pub mod input;
pub mod lines;
pub mod log;
pub mod news;
pub mod quotes;
pub mod reading;
pub mod records;
pub mod run;
pub mod values;
pub mod writing;

pub use fault::Fault;
pub use input::Input;
