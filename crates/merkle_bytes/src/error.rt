//! Why bytes were not read.
ghost use Rattle.std.specs.Prelude.{◌≡◌, Some};
ghost use Rattle.merkle_bytes.specs.Texts.{expected_text, read_error_text};

use std::alloc::{AllocError, AllocFailed};
use std::fmt;

/// What should have stood where bytes could not be read on.
#[derive(Clone, Copy, Debug, PartialEq, Eq, Drop)]
pub enum Expected {
    /// This many bytes more.
    Bytes(u64),
    /// A count in its shortest form.
    Count,
    /// A text in UTF-8.
    Text,
    /// A key that is not below the one before it.
    LastKey,
    /// How many bytes a key shares with the one before it, and how many more it has, in the shortest form.
    Front,
    /// A key.
    Key,
    /// A byte 0 or 1.
    Flag,
    /// The byte of a kind.
    Kind,
    /// A question.
    Question,
    /// The byte of a page format.
    PageFormat,
    /// The byte of the version.
    Version,
    /// A byte string that is as long as the array.
    Length,
    /// A number that fits the type.
    Number,
    /// The end.
    End,
}

/// Why bytes were not read.
#[derive(Clone, Copy, Debug, PartialEq, Eq, Drop)]
pub enum ReadError {
    /// Out of memory.
    Memory,
    /// What was expected does not stand there.
    Unexpected {
        /// How many bytes stand before that place.
        offset: usize,
        /// What was expected.
        expected: Expected,
    },
}

impl From<AllocError> for ReadError {
    ghost use Rattle.merkle_bytes.specs.declared.error.ReadError.TheVariants.{Memory};

    ghost from_gives = { λ _ fault. fault ≡ Memory };

    fn from(_error: AllocError) -> Self {
        ReadError::Memory
    }
}

impl fmt::Display for Expected {
    ghost output = { λ expected. Some (expected_text expected) };

    fn fmt<W: fmt::Write>(&self, f: &mut fmt::Formatter<W>) -> fmt::Result {
        match self {
            Expected::Bytes(count) => write!(f, "{count} bytes more"),
            Expected::Count => f.write_str("a count in its shortest form"),
            Expected::Text => f.write_str("a text in UTF-8"),
            Expected::LastKey => f.write_str("a key that is not below the one before it"),
            Expected::Front => f.write_str(
                "what a key shares with the one before it, in its shortest form",
            ),
            Expected::Key => f.write_str("a key"),
            Expected::Flag => f.write_str("a byte 0 or 1"),
            Expected::Kind => f.write_str("a kind byte"),
            Expected::Question => f.write_str("a question"),
            Expected::PageFormat => f.write_str("a page format byte"),
            Expected::Version => f.write_str("the version byte"),
            Expected::Number => f.write_str("a number that fits"),
            Expected::Length => f.write_str("a byte string that is as long as the array"),
            Expected::End => f.write_str("the end"),
        }
    }
}

impl fmt::Display for ReadError {
    ghost output = { λ error. Some (read_error_text error) };

    fn fmt<W: fmt::Write>(&self, f: &mut fmt::Formatter<W>) -> fmt::Result {
        match self {
            ReadError::Memory => f.write_str("out of memory"),
            ReadError::Unexpected { offset, expected } => {
                write!(f, "after {offset} bytes, expected {expected}")
            }
        }
    }
}
