//! Values as bytes, each read back from its bytes and from no others: numbers, texts, byte strings, arrays, pairs, options, lists, page
//! ranges, and lists of keys that are written by what each shares with the one before.
#![tactic(auto)]

mod bounds;
mod byte_strings;
mod counts;
mod decode;
mod encode;
mod error;
mod fronts;
mod key_run;
pub mod laws;
mod lists;
mod numbers;
mod options;
mod page_ranges;
mod pairs;
mod reader;
mod rows;
mod run_entry;
mod runs;

pub use counts::encode_count;
pub use decode::Decode;
pub use encode::Encode;
pub use error::{Expected, ReadError};
pub use key_run::KeyRun;
pub use lists::{decode_list, encode_list};
pub use reader::Reader;
pub use run_entry::{DecodeInRun, EncodeInRun};
pub use runs::{decode_run, encode_run};
