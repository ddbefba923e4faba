//! The main theorem: one call, whose contract says all of it at once.
//!
//! [`converge`] makes two replicas with the same settings, carries out a list of updates on each, and then brings them together, by pulls by
//! turns or by a catch-up each way. The definitions of its contract are in `specs/After.antt`, what the updates lead to, and
//! `specs/Course.antt`, how the replicas came together; all others are those of replicas and trees.
#![tactic(auto)]

mod after;
mod course;
mod theorem;

pub use course::{Exchange, Exchanged, RunRefused};
pub use theorem::{Outcome, Run, converge};
