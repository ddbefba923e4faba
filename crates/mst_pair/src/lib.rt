//! Two replicas of a map from texts to numbers, and the engine that serves them: from the bytes of an input
//! to the bytes of the replies.
//!
//! [`run::run`] reads lines from a [`source::Source`] and writes the reply to each line to a [`sink::Sink`]:
//!
//! ```rust crates/mst_pair_cli/src/main.rt
//! let mut reader = FromRead::new(rt.stdin());
//! let mut writer = ToWrite::new(rt.stdout());
//! match run(rt.alloc(), &mut reader, &mut writer) {
//! ```
//!
//! `specs/` says what the lines of an input are (`Lines`), what each line asks for (`Requests`), what it is
//! answered (`Engine`), and what a whole run reads and writes (`Run`).
//!
//! The replicas are those of the crate `merkle_replica`, of which what the engine speaks of is here too: `Replica`, `Join`,
//! `ValueHasher`, `Pulled`, `PullError`, `TurnsError` and `pull_by_turns`.
#![tactic(auto)]

mod answers;
mod engine;
mod line;
mod number;
mod page_reply;
mod parse;
mod pending;
pub mod reader;
mod reply;
pub mod run;
mod session;
pub mod sink;
pub mod source;
mod text_replica;
pub mod writer;

pub use merkle_replica::{
    Join, PullError, Pulled, Replica, TurnsError, ValueHasher, pull_by_turns,
};
