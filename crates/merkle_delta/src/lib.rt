//! Replies that are told as what they differ by from bytes that the other side has, by the checksums of chunks: as rsync does with files (Tridgell and
//! Mackerras, "The rsync algorithm"), with chunks that end where their bytes say so (Muthitacharoen, Chen and Mazières, "A low-bandwidth network file
//! system"). What the questions and replies are, this crate doesn't know: they are bytes.
#![tactic(auto)]

mod checksum;
mod chunks;
mod delta;
mod hearing;
pub mod laws;
mod message;
mod patch;
mod table;
mod telling;

pub use chunks::Chunks;
pub use hearing::{Deltas, Heard};
pub use telling::{read_message, tell};
