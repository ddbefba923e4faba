//! What the calls for C share: statuses, sixteen bytes and page formats as C passes them, bytes for the caller, lists as bytes, and what
//! is held behind a pointer.
#![tactic(auto)]

mod bytes16;
mod handle;
mod output;
mod page_format;
mod reading;
pub mod status;
mod writing;

pub use bytes16::MstBytes16;
pub use handle::Handle;
pub use output::{put_bytes, put_made};
pub use page_format::format_of;
pub use reading::{ListError, all_read, body_of, pair_of, text_of};
pub use writing::{ROWS, put, put_number, put_text};
