//! Decides, of two replicas at hand, what theorems assume of their digests: that digests which are met and equal stand for equal things. Each
//! call that returns `true` proves the premise that its contract names, so that a caller's theorem needs none. They are for tests and for
//! audits of one's own data: each looks at all pages or rows of both replicas.
#![tactic(auto)]

mod faithful;
mod nodes;
mod pages;
mod values;

pub use faithful::{are_faithful, is_faithful_session};
pub use nodes::have_faithful_nodes;
pub use pages::have_faithful_pages;
pub use values::{digest_their_values_alike, have_faithful_values};
