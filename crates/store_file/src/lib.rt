//! The SQLite file of a key-value store: it is made, opened and closed without a statement of SQL; and the log in it, each write that the store has
//! seen, is read and written without a tree in memory.
#![tactic(auto)]

pub mod catalog;
pub mod entry;
pub mod fault;
pub mod file;
pub mod format;
pub mod former;
pub mod latest;
pub mod log;
pub mod naming;
pub mod range;
pub mod reader;
pub mod register;
mod registers;
pub mod rows;
pub mod sifting;
pub mod table;
pub mod unsure;
pub mod value;
mod walk;

pub use fault::StoreFault;
pub use file::{close, close_files, create, is_store, open, open_trusted, open_whole, reopen};
pub use register::Register;
pub use unsure::Unsure;
pub use value::Value;
