//! Replies that came: each answers the first of what was asked for, or all of it, and is taken entry by entry, as it is read.
ghost use Rattle.std.specs.Prelude.{◌≡◌, ◌≢◌, ◌++◌, ◌∷◌, ℕ, [], List, IfOk, IfErr, OnOk, Option, ◌<◌, ◌^◌};
ghost use Rattle.merkle_bytes.specs.Reading.{Reads};
ghost use Rattle.merkle_wire.specs.Coming.{IsPageDigest};
ghost use Rattle.merkle_wire.specs.ByDigests.{TakesOutlines, TakesReply};
ghost use Rattle.merkle_wire.specs.Faults.{IsNotTaken, IsRefusedFor};
ghost use Rattle.merkle_wire.specs.Fit.{IsFit, SaysOutlines};
ghost use Rattle.merkle_wire.specs.Messages.{front};
ghost use Rattle.merkle_wire.specs.Replies.{root_bytes};
ghost use Rattle.merkle_wire.specs.declared.session_error.SessionError.TheVariants.{Memory};

use crate::coming::{read_outline, read_part, read_value};
use crate::gaps::OwnedGap;
use crate::kept_tree::KeptTree;
use crate::message::{Kind, decode_kind};
use crate::pages::decode_page;
use crate::question::Question;
use crate::session_error::{SessionError, TakeError};
use crate::taking::{has_few, take_outline, take_root, take_rows, take_value};
use crate::wanted::Wanted;
use crate::work::Work;
use merkle_bytes::{Decode, Reader};
use merkle_digest::{Key, PageDigest};
use merkle_replica::{Join, RowHasher};
use std::alloc::Global;

/// Reads the front of a reply of this kind.
pub(crate) fn expect(reader: &mut Reader<'_>, kind: Kind) -> Result<(), SessionError>
    ensures read { OnOk result (Reads reader.old (front kind) reader.new) }
    ensures refused { IfErr result (IsRefusedFor ((rest : List ℕ) → reader.old.left.now ≢ front kind ++ rest)) }
{
    let came = decode_kind(reader)?;
    if came == kind {
        return Ok(());
    }
    if came == Kind::Refusal {
        return Err(SessionError::Refused);
    }
    Err(SessionError::OtherKind)
}

/// A reader of what stands after the front of a reply of this kind, which isn't nothing.
fn reader_of<'a>(alloc: Global, reply: &'a [u8], kind: Kind) -> Result<Reader<'a>, SessionError>
    ensures read { IfOk result (λ reader. reply.now ≡ front kind ++ reader.left.now) }
    ensures some { IfOk result (λ reader. reader.left.now ≢ []) }
    ensures refused { IfErr result (IsRefusedFor ((rest : List ℕ) → rest ≢ [] → reply.now ≢ front kind ++ rest)) }
{
    let mut reader = Reader::new(alloc, reply);
    expect(&mut reader, kind)?;
    if reader.left().is_empty() {
        return Err(SessionError::NothingCame);
    }
    Ok(reader)
}

/// How many rows the peer has, and the digest of its root page, or none.
fn decode_root(alloc: Global, reply: &[u8]) -> Result<(u64, Option<PageDigest>), SessionError>
    ensures read { IfOk result (λ root. reply.now ≡ root_bytes root.0 root.1) }
    ensures refused { IfErr result (IsRefusedFor (¬ ((count : ℕ) × (digest : Option _) × (count < 2 ^ 64) × IsPageDigest digest
        × (reply.now ≡ root_bytes count digest)))) }
{
    let mut reader = Reader::new(alloc, reply);
    expect(&mut reader, Kind::Root)?;
    let rows = reader.count()?;
    let digest = decode_page(&mut reader)?;
    reader.end()?;
    Ok((rows, digest))
}

/// Keeps what nothing came for: it is to be asked for again.
fn keep<X: Drop>(left: &mut Vec<X>, asked: X) -> Result<(), SessionError>
    ensures kept { OnOk result (left.new.items ≡ left.old.items ++ asked ∷ []) }
    ensures memory { IfErr result (λ error. error ≡ Memory) }
{
    left.push(asked)?;
    Ok(())
}

/// Expects that nothing is left of a reply.
fn expect_end(reader: &Reader<'_>) -> Result<(), SessionError>
    ensures ended { OnOk result (reader.now.left.now ≡ []) }
    ensures refused { IfErr result (IsRefusedFor (reader.now.left.now ≢ [])) }
{
    reader.end()?;
    Ok(())
}

/// Takes what came of the pages over the first of the gaps, or over all of them, and returns the other gaps.
fn take_outlines<
    K: Key + Decode,
    V: Join + Decode,
    H: RowHasher<N, K, V>,
    T: KeptTree<N, K, V, H>,
    const N: usize,
>(
    alloc: Global,
    tree: &mut T,
    kind: Kind,
    with_pages: bool,
    gaps: Vec<OwnedGap<K>>,
    reply: &[u8],
    work: &mut Work<K, V>,
) -> Result<Vec<OwnedGap<K>>, TakeError<T::Error>>
    ensures taken { T.is_sound tree.new → IfOk result (TakesOutlines H.laws (T.kept tree.old).digests N K.encoding V.encoding kind
        gaps.items reply.now work.old work.new) }
    ensures refused { IfErr result (IsNotTaken (¬ SaysOutlines K.cmp K.is_value V.is_value K.encoding V.encoding N kind with_pages
        gaps.items reply.now)) }
    ensures kept { T.is_sound tree.new → T.kept tree.new ≡ T.kept tree.old }
    ensures steady { T.is_sound tree.new → T.is_sound tree.old }
{
    let mut reader = reader_of(alloc, reply, kind)?;
    let mut left = Vec::new(alloc);
    'gaps: for gap in gaps {
        if reader.left().is_empty() {
            keep(&mut left, gap)?;
        } else {
            let outline = read_outline(&mut reader, N, with_pages, &gap)?;
            match take_outline(tree, gap, outline, work) {
                Ok(()) => {}
                Err(error) => return Err(TakeError::Tree(error)),
            }
        }
    }
    expect_end(&reader)?;
    Ok(left)
}

/// Takes the values at the first of the keys, or at all of them. The other keys are to be asked for again.
fn take_values<
    K: Key + Decode,
    V: Join + Decode,
    H: RowHasher<N, K, V>,
    T: KeptTree<N, K, V, H>,
    const N: usize,
>(
    alloc: Global,
    tree: &mut T,
    keys: Vec<Wanted<K>>,
    reply: &[u8],
    work: &mut Work<K, V>,
) -> Result<Option<Question<K>>, TakeError<T::Error>>
    ensures taken { T.is_sound tree.new → IfOk result (TakesReply H.laws (T.kept tree.old).digests N K.encoding V.encoding (Question.RowsAt keys)
        reply.now work.old work.new) }
    ensures refused { IfErr result (IsNotTaken (¬ IsFit K.cmp K.is_value V.is_value K.encoding V.encoding N (Question.RowsAt keys) reply.now)) }
    ensures kept { T.is_sound tree.new → T.kept tree.new ≡ T.kept tree.old }
    ensures steady { T.is_sound tree.new → T.is_sound tree.old }
{
    let mut reader = reader_of(alloc, reply, Kind::RowsAt)?;
    let mut left = Vec::new(alloc);
    'keys: for wanted in keys {
        if reader.left().is_empty() {
            keep(&mut left, wanted)?;
        } else {
            let value = read_value(&mut reader)?;
            match take_value(tree, wanted, value, work) {
                Ok(()) => {}
                Err(error) => return Err(TakeError::Tree(error)),
            }
        }
    }
    expect_end(&reader)?;
    if left.is_empty() {
        return Ok(None);
    }
    Ok(Some(Question::RowsAt(left)))
}

/// Takes the rows in the first of the gaps, or in all of them. What is left of gaps of which not all rows came, and the other gaps, are to be asked
/// for again.
fn take_parts<
    K: Key + Decode,
    V: Join + Decode,
    H: RowHasher<N, K, V>,
    T: KeptTree<N, K, V, H>,
    const N: usize,
>(
    alloc: Global,
    tree: &mut T,
    gaps: Vec<OwnedGap<K>>,
    reply: &[u8],
    work: &mut Work<K, V>,
) -> Result<Option<Question<K>>, TakeError<T::Error>>
    ensures taken { T.is_sound tree.new → IfOk result (TakesReply H.laws (T.kept tree.old).digests N K.encoding V.encoding (Question.RowsIn gaps)
        reply.now work.old work.new) }
    ensures refused { IfErr result (IsNotTaken (¬ IsFit K.cmp K.is_value V.is_value K.encoding V.encoding N (Question.RowsIn gaps) reply.now)) }
    ensures kept { T.is_sound tree.new → T.kept tree.new ≡ T.kept tree.old }
    ensures steady { T.is_sound tree.new → T.is_sound tree.old }
{
    let mut reader = reader_of(alloc, reply, Kind::RowsIn)?;
    let mut left = Vec::new(alloc);
    'gaps: for gap in gaps {
        if reader.left().is_empty() {
            keep(&mut left, gap)?;
        } else {
            let part = read_part(&mut reader, &gap, &mut left)?;
            match take_rows(tree, part.0, work) {
                Ok(()) => {}
                Err(error) => return Err(TakeError::Tree(error)),
            }
        }
    }
    expect_end(&reader)?;
    if left.is_empty() {
        return Ok(None);
    }
    Ok(Some(Question::RowsIn(left)))
}

/// Takes a reply to a question, entry by entry, and returns what of the question is to be asked again. `count` is about how many rows this side has.
pub(crate) fn take_reply<
    K: Key + Decode,
    V: Join + Decode,
    H: RowHasher<N, K, V>,
    T: KeptTree<N, K, V, H>,
    const N: usize,
>(
    alloc: Global,
    tree: &mut T,
    count: u64,
    asked: Question<K>,
    reply: &[u8],
    work: &mut Work<K, V>,
) -> Result<Option<Question<K>>, TakeError<T::Error>>
    ensures taken { T.is_sound tree.new → IfOk result (TakesReply H.laws (T.kept tree.old).digests N K.encoding V.encoding asked
        reply.now work.old work.new) }
    ensures refused { IfErr result (IsNotTaken (¬ IsFit K.cmp K.is_value V.is_value K.encoding V.encoding N asked reply.now)) }
    ensures kept { T.is_sound tree.new → T.kept tree.new ≡ T.kept tree.old }
    ensures steady { T.is_sound tree.new → T.is_sound tree.old }
{
    match asked {
        Question::Root(_) => {
            let (rows, digest) = decode_root(alloc, reply)?;
            match take_root(tree, has_few(count, rows), &digest, work) {
                Ok(()) => Ok(None),
                Err(error) => Err(TakeError::Tree(error)),
            }
        }
        Question::Outlines(most, gaps) => {
            let left = take_outlines(alloc, tree, Kind::Outlines, true, gaps, reply, work)?;
            if left.is_empty() {
                return Ok(None);
            }
            Ok(Some(Question::Outlines(most, left)))
        }
        Question::Nodes(most, gaps) => {
            let left = take_outlines(alloc, tree, Kind::Nodes, false, gaps, reply, work)?;
            if left.is_empty() {
                return Ok(None);
            }
            Ok(Some(Question::Nodes(most, left)))
        }
        Question::RowsAt(keys) => take_values(alloc, tree, keys, reply, work),
        Question::RowsIn(gaps) => take_parts(alloc, tree, gaps, reply, work),
    }
}
