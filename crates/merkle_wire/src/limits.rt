//! How much a catch-up takes of its peer at most.
ghost use Rattle.std.specs.Prelude.{◌≡◌, IfOk, IfErr, MatchOption, OnOk, Some};
ghost use Rattle.merkle_wire.specs.Limits.{Allows, IsLeftOf, IsOverLimit, limit_text, no_limits};

use crate::session_error::SessionError;
use std::fmt;

/// The most that a catch-up takes from its peer. `None` means no limit.
///
/// Without limits, a peer can keep a catch-up busy for ever, with one row in each reply. The default is 1,000,000 replies, 2^32 rows and 2^36 bytes
/// (64 GiB).
#[derive(Clone, Copy, Debug, PartialEq, Eq, Drop)]
pub struct Limits {
    /// How many replies.
    pub replies: Option<u64>,
    /// How many rows that this side lacks, or has with another digest.
    pub rows: Option<u64>,
    /// How many bytes all replies have together.
    pub bytes: Option<u64>,
}

/// A limit of a catch-up.
#[derive(Clone, Copy, Debug, PartialEq, Eq, Drop)]
pub enum Limit {
    /// That of replies.
    Replies,
    /// That of rows.
    Rows,
    /// That of bytes.
    Bytes,
}

impl Default for Limits {
    fn default() -> Self {
        Limits {
            replies: Some(1_000_000),
            rows: Some(1 << 32),
            bytes: Some(1 << 36),
        }
    }
}

impl Limits {
    /// No limit, for a peer that is trusted with this side's time and memory.
    pub fn none() -> Self
        ensures { result ≡ no_limits }
    {
        Limits {
            replies: None,
            rows: None,
            bytes: None,
        }
    }

    /// What a reply of this many bytes leaves.
    pub(crate) fn after(self, bytes: usize) -> Result<Limits, SessionError>
        ensures left { IfOk result (λ left. IsLeftOf self.replies 1 left.replies × IsLeftOf self.bytes bytes left.bytes × (left.rows ≡ self.rows)) }
        ensures over { IfErr result (IsOverLimit bytes self) }
    {
        let Some(replies) = less(self.replies, 1) else {
            return Err(SessionError::Limit(Limit::Replies));
        };
        let Some(bytes) = less(self.bytes, bytes as u64) else {
            return Err(SessionError::Limit(Limit::Bytes));
        };
        Ok(Limits {
            replies,
            rows: self.rows,
            bytes,
        })
    }

    /// Whether so many rows may have been found.
    pub(crate) fn check_rows(&self, rows: usize) -> Result<(), SessionError>
        ensures within { OnOk result (Allows self.now.rows rows) }
        ensures over { IfErr result (λ error. (error ≡ SessionError.Limit Limit.Rows) × ¬ Allows self.now.rows rows) }
    {
        match self.rows {
            Some(most) if most < rows as u64 => Err(SessionError::Limit(Limit::Rows)),
            _ => Ok(()),
        }
    }
}

/// What is left of a limit after this many more, or none where they are too many.
fn less(limit: Option<u64>, number: u64) -> Option<Option<u64>>
    ensures { MatchOption result (¬ Allows limit number) (IsLeftOf limit number) }
{
    match limit {
        None => Some(None),
        Some(most) if most < number => None,
        Some(most) => Some(Some(most - number)),
    }
}

impl fmt::Display for Limit {
    ghost output = { λ limit. Some (limit_text limit) };

    fn fmt<W: fmt::Write>(&self, f: &mut fmt::Formatter<W>) -> fmt::Result {
        match self {
            Limit::Replies => f.write_str("replies"),
            Limit::Rows => f.write_str("rows"),
            Limit::Bytes => f.write_str("bytes"),
        }
    }
}
