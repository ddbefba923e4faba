//! Replies of many lines.
ghost use Rattle.std.specs.Prelude.{◌≡◌, ◌++◌, ℕ, List, codes};
ghost use Rattle.std.specs.Fmt.{decimal};
ghost use Rattle.std.specs.List.{flat_map};
ghost use Rattle.merkle_digest.specs.Digest.{base64_of};
ghost use Rattle.merkle_replica.specs.Answers.{answer_of};
ghost use Rattle.mst_pair.specs.Devices.{WritesBytes, Passes, MarksFailure};
ghost use Rattle.mst_pair.specs.Engine.{no_memory};
ghost use Rattle.mst_pair.specs.Replies.{reply_line, end_line, row_text, range_text, joined_text, pull_reply};

use crate::pending::Pending;
use crate::sink::{Sink, write_all};
use crate::source::Failed;
use base64::engine::general_purpose::STANDARD;
use itoa::Buffer;
use merkle_diff::PageRange;
use merkle_digest::RootHash;
use merkle_replica::Pulled;

/// What is shown as a line of a reply.
pub trait ReplyLine {
    /// The text of the line.
    ghost line_text: { Self → List ℕ };

    /// Adds the line after the text that is pending.
    fn write_line<W: Sink>(&self, pending: &mut Pending, writer: &mut W) -> Result<(), Failed>
        ensures bytes { Passes result (W.taken writer.old) (W.taken writer.new) pending.old (line_text self.now) pending.new }
        ensures failed { MarksFailure result (W.has_failed writer.old) (W.has_failed writer.new) };
}

/// A row: its key and its number.
impl ReplyLine for (String, u64) {
    ghost line_text = { row_text };

    fn write_line<W: Sink>(&self, pending: &mut Pending, writer: &mut W) -> Result<(), Failed> {
        let mut number = Buffer::new();
        write_fields(self.0.as_str(), number.format(self.1), pending, writer)
    }
}

/// A range of keys: its first and its last key.
impl ReplyLine for (String, String) {
    ghost line_text = { λ range. range_text (record { first = range.0; last = range.1 }) };

    fn write_line<W: Sink>(&self, pending: &mut Pending, writer: &mut W) -> Result<(), Failed> {
        write_fields(self.0.as_str(), self.1.as_str(), pending, writer)
    }
}

/// The range of a page: its first and its last key.
impl ReplyLine for PageRange<'_, String> {
    ghost line_text = { λ range. range_text (record { first = range.start.now; last = range.end.now }) };

    fn write_line<W: Sink>(&self, pending: &mut Pending, writer: &mut W) -> Result<(), Failed> {
        write_fields(self.start().as_str(), self.end().as_str(), pending, writer)
    }
}

/// How many rows a pull joined.
impl ReplyLine for Pulled<String> {
    ghost line_text = { λ pulled. joined_text pulled.joined };

    fn write_line<W: Sink>(&self, pending: &mut Pending, writer: &mut W) -> Result<(), Failed> {
        let mut number = Buffer::new();
        write_fields("joined", number.format(self.joined), pending, writer)
    }
}

/// Writes that memory ran out.
pub fn write_no_memory<W: Sink>(writer: &mut W) -> Result<(), Failed>
    ensures bytes { WritesBytes result (W.taken writer.old) (W.taken writer.new) no_memory }
    ensures failed { MarksFailure result (W.has_failed writer.old) (W.has_failed writer.new) }
{
    write_all(writer, b"no memory\n")
}

/// How many bytes the line of a root hash has: 24 characters and the newline.
const ROOT_LINE: usize = 25;

/// Writes a root hash in base64.
pub fn write_root<W: Sink>(hash: &RootHash, writer: &mut W) -> Result<(), Failed>
    ensures bytes { WritesBytes result (W.taken writer.old) (W.taken writer.new) (reply_line (base64_of hash.now)) }
    ensures failed { MarksFailure result (W.has_failed writer.old) (W.has_failed writer.new) }
{
    let mut line = [b'\n'; ROOT_LINE];
    let _ = STANDARD.encode_slice(hash.as_bytes(), &mut line);
    write_all(writer, &line)
}

/// Writes a line for each item, and the line `end`.
pub fn write_list<T: ReplyLine, W: Sink>(items: &[T], writer: &mut W) -> Result<(), Failed>
    ensures bytes { WritesBytes result (W.taken writer.old) (W.taken writer.new) (flat_map T.line_text items.now ++ end_line) }
    ensures failed { MarksFailure result (W.has_failed writer.old) (W.has_failed writer.new) }
{
    let mut pending = Pending::new();
    add_list(items, &mut pending, writer)?;
    pending.flush(writer)
}

/// Writes the ranges of a pull, the line `end`, and how many rows it joined.
pub fn write_pull<W: Sink>(pulled: &Pulled<String>, writer: &mut W) -> Result<(), Failed>
    ensures bytes { WritesBytes result (W.taken writer.old) (W.taken writer.new) (pull_reply (answer_of pulled.now)) }
    ensures failed { MarksFailure result (W.has_failed writer.old) (W.has_failed writer.new) }
{
    let mut pending = Pending::new();
    add_list(&pulled.ranges, &mut pending, writer)?;
    pulled.write_line(&mut pending, writer)?;
    pending.flush(writer)
}

fn add_list<T: ReplyLine, W: Sink>(
    items: &[T],
    pending: &mut Pending,
    writer: &mut W,
) -> Result<(), Failed>
    ensures bytes { Passes result (W.taken writer.old) (W.taken writer.new) pending.old (flat_map T.line_text items.now ++ end_line) pending.new }
    ensures failed { MarksFailure result (W.has_failed writer.old) (W.has_failed writer.new) }
{
    add_lines(items, pending, writer)?;
    pending.write("end\n", writer)
}

fn add_lines<T: ReplyLine, W: Sink>(
    items: &[T],
    pending: &mut Pending,
    writer: &mut W,
) -> Result<(), Failed>
    ensures bytes { Passes result (W.taken writer.old) (W.taken writer.new) pending.old (flat_map T.line_text items.now) pending.new }
    ensures failed { MarksFailure result (W.has_failed writer.old) (W.has_failed writer.new) }
{
    'showing: for item in items {
        item.write_line(pending, writer)?;
    }
    Ok(())
}

fn write_fields<W: Sink>(
    first: &str,
    second: &str,
    pending: &mut Pending,
    writer: &mut W,
) -> Result<(), Failed>
    ensures bytes { Passes result (W.taken writer.old) (W.taken writer.new) pending.old (reply_line (first.now ++ codes " " ++ second.now)) pending.new }
    ensures failed { MarksFailure result (W.has_failed writer.old) (W.has_failed writer.new) }
{
    pending.write(first, writer)?;
    pending.write(" ", writer)?;
    pending.write(second, writer)?;
    pending.write("\n", writer)
}
