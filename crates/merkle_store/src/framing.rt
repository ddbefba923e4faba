//! Messages over a pair of pipes or a socket: each as its length in eight bytes, the lowest first, and its bytes.
ghost use Rattle.std.specs.Prelude.{◌≡◌, ◌≤◌, ◌++◌, length, IfOk, IfSome, IfNone, OnOk};
ghost use Rattle.std.specs.Io.KnownBytes.{Appends, Consumes};
ghost use Rattle.merkle_store.specs.Framing.{HasCome, HasEnded, frame_of};

use crate::wire::WireFault;
use std::alloc::Global;
use std::io::{ErrorKind, Read, Write};

/// How many bytes a message has at most, unless more are allowed: 1 GiB.
pub const MOST_BYTES: u64 = 1_073_741_824;

/// How many bytes an answer has at which it ends, and the rest is asked for: 16 MiB. So neither side holds a long answer whole, and a store
/// below that is told in one.
pub const ANSWER_BYTES: usize = 16_777_216;

/// How many bytes of a message are sent in one piece with its length.
const PIECE: usize = 65_536;

/// How many bytes are read at once.
const CHUNK: usize = 16_384;

/// Who is told how a long message comes on.
pub trait Watch {
    /// This many bytes more have come.
    fn came(&mut self, bytes: usize);
}

/// Nobody.
#[derive(Drop)]
pub struct Unwatched;

impl Watch for Unwatched {
    fn came(&mut self, _bytes: usize) {}
}

/// Sends a message, and hands it on. It takes memory for a copy of its first 64 KiB.
///
/// # Errors
///
/// [`WireFault::Device`], and [`WireFault::Memory`]: a part of the message may have been sent.
pub fn send<W: Write>(alloc: Global, out: &mut W, message: &[u8]) -> Result<(), WireFault>
    ensures sent { OnOk result (Appends (W.contents out.old) (W.contents out.new) (frame_of message.now)) }
{
    let (front, rest) = message.split_at(if message.len() < PIECE {
        message.len()
    } else {
        PIECE
    });
    let mut first = Vec::from_slice(alloc, &(message.len() as u64).to_le_bytes())?;
    first.extend_from_slice(front)?;
    write(out, &first)?;
    write(out, rest)?;
    match out.flush() {
        Ok(()) => Ok(()),
        Err(_) => Err(WireFault::Device),
    }
}

/// Writes all of these bytes.
fn write<W: Write>(out: &mut W, bytes: &[u8]) -> Result<(), WireFault>
    ensures written { OnOk result (Appends (W.contents out.old) (W.contents out.new) bytes.now) }
{
    match out.write_all(bytes) {
        Ok(()) => Ok(()),
        Err(_) => Err(WireFault::Device),
    }
}

/// Fills the buffer.
fn fill<R: Read>(from: &mut R, buf: &mut [u8]) -> Result<(), WireFault>
    ensures filled { OnOk result (Consumes (R.remaining from.old) (R.remaining from.new) buf.new) }
{
    match from.read_exact(buf) {
        Ok(()) => Ok(()),
        Err(error) => match error.kind() {
            ErrorKind::UnexpectedEof => Err(WireFault::Cut),
            _ => Err(WireFault::Device),
        },
    }
}

/// Fills the buffer, and appends what it has then.
fn append<R: Read>(from: &mut R, chunk: &mut [u8], body: &mut Vec<u8>) -> Result<(), WireFault>
    ensures read { OnOk result (Consumes (R.remaining from.old) (R.remaining from.new) chunk.new) }
    ensures appended { OnOk result (body.new.items ≡ body.old.items ++ chunk.new) }
{
    fill(from, chunk)?;
    body.extend_from_slice(chunk)?;
    Ok(())
}

/// Reads this many bytes. The memory that it takes grows with the bytes that come, and not with the length that was promised.
fn receive_body<R: Read, P: Watch>(
    alloc: Global,
    from: &mut R,
    len: u64,
    watch: &mut P,
) -> Result<Vec<u8>, WireFault>
    ensures read { IfOk result (λ body. Consumes (R.remaining from.old) (R.remaining from.new) body.items) }
    ensures len { IfOk result (λ body. length body.items ≡ len) }
{
    let mut body = Vec::new(alloc);
    let mut left = len;
    let mut chunk = [0u8; CHUNK];
    'chunks: while left > 0 {
        let want = if left < chunk.len() as u64 {
            left as usize
        } else {
            chunk.len()
        };
        append(from, &mut chunk[..want], &mut body)?;
        watch.came(want);
        left -= want as u64;
    }
    Ok(body)
}

/// The next eight bytes, or `None` at the end of the input.
fn receive_len<R: Read>(from: &mut R) -> Result<Option<[u8; 8]>, WireFault>
    ensures read { IfOk result (λ len. IfSome len (Consumes (R.remaining from.old) (R.remaining from.new))) }
    ensures none { IfOk result (λ len. IfNone len (HasEnded (R.remaining from.old) (R.remaining from.new))) }
{
    let mut len = [0u8; 8];
    let got = match from.read(&mut len) {
        Ok(0) => return Ok(None),
        Ok(got) => got,
        Err(_) => return Err(WireFault::Device),
    };
    fill(from, &mut len[got..])?;
    Ok(Some(len))
}

/// The next message, of at most `most` bytes, or `None` at the end of the input. No memory is taken for a longer one.
///
/// # Errors
///
/// [`WireFault::TooLong`], [`WireFault::Cut`] where the input ends within a message, [`WireFault::Device`] and [`WireFault::Memory`].
pub fn receive<R: Read, P: Watch>(
    alloc: Global,
    from: &mut R,
    most: u64,
    watch: &mut P,
) -> Result<Option<Vec<u8>>, WireFault>
    ensures came { IfOk result (HasCome (R.remaining from.old) (R.remaining from.new)) }
    ensures fits { IfOk result (λ message. IfSome message (λ message. length message.items ≤ most)) }
{
    let Some(len) = receive_len(from)? else {
        return Ok(None);
    };
    let len = u64::from_le_bytes(len);
    if len > most {
        return Err(WireFault::TooLong(len));
    }
    let body = receive_body(alloc, from, len, watch)?;
    Ok(Some(body))
}
