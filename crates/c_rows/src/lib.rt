//! Rows of byte strings, as the libraries for C have them whose sides talk by messages: values of which the greater stays, lists of rows as
//! bytes, and the refusals that are kept.
#![tactic(auto)]

mod list;
mod reading;
mod refusing;
pub mod status;
mod value;

pub use list::encode;
pub use reading::decode_rows;
pub use refusing::{fail, refuse};
pub use value::ByteValue;
