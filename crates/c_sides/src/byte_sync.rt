//! What a handle holds: a tree of the digests of byte strings, the catch-up that it is in, a message and a list.
ghost use Rattle.std.specs.Prelude.{◌≡◌, ◌⊎◌, OnOk, OnErr, IfOk, false};
ghost use Rattle.std.specs.Int.NonZero.{non_zero_u8_get};
ghost use Rattle.c_rows.specs.Values.{key_encoding};
ghost use Rattle.c_values.specs.Keys.{bytes_cmp, key_items, pairs_of};
ghost use Rattle.key_order.specs.Map.{get};
ghost use Rattle.merkle_search_tree.specs.Loading.{row_count};
ghost use Rattle.merkle_tree_theory.specs.State.{map_of};
ghost use Rattle.merkle_tree_theory.specs.Stream.{page_digest};
ghost use Rattle.merkle_wire.specs.Questions.{question_bytes};
ghost use Rattle.c_rows.specs.Ends.{MeansRefusal};
ghost use Rattle.c_sides.specs.Calls.{CountsFor, EndsBy, HasBegun, IsAnswered, IsAnsweredWith, IsPairDel, IsFresh, IsKeptOf, IsNeeded, IsPairSet};
ghost use Rattle.c_sides.specs.Calls.{KeepsOrNeeds, KeepsSide, OnlyHashes, SameList, TakesReply};

use crate::handed::{Handed, HandedError};
use crate::needs::needs_of;
use crate::status::NEEDS_ROWS;
use crate::unread::Unread;
use c_rows::status::status_of;
use c_rows::{ByteValue, encode, fail, refuse};
use c_values::ListError;
use c_values::status::{ARGUMENT, DONE, MALFORMED, MEMORY};
use merkle_bytes::ReadError;
use merkle_digest::SipHasher;
use merkle_search_tree::MerkleSearchTree;
use merkle_search_tree::builder::{Builder, PageFormat};
use merkle_wire::{
    CatchingUp, KeptError, MOST_BYTES, Next, Question, TakeError, answer_by, decode_question,
};
use std::alloc::{AllocError, Global};
use std::num::NonZeroU8;

/// A tree of the digests of byte strings; a catch-up that waits for a reply, if one is under way, and about how many keys there were when it began;
/// the message that is to be sent next, which is empty where there is none; and the rows that came, or what is needed of the rows.
pub struct ByteSync {
    pub tree: MerkleSearchTree<Vec<u8>, ByteValue, SipHasher, 16>,
    pub session: Option<CatchingUp<Vec<u8>, ByteValue>>,
    pub about: u64,
    pub message: Vec<u8>,
    pub list: Vec<u8>,
}

// Written out, so that a caller doesn't prove again how each part is dropped.
impl Drop for ByteSync {
    fn drop(self) {
        let ByteSync {
            tree: _,
            session: _,
            about: _,
            message: _,
            list: _,
        } = self;
    }
}

/// What comes after a reply.
#[derive(Drop)]
pub enum Taken {
    /// The message that is kept is to be sent.
    Asks,
    /// The catch-up is over, and the rows that came are the list that is kept.
    Kept,
    /// The catch-up is over, and memory ran out.
    Lost,
    /// The catch-up is over, no row came, and this is the status.
    Failed(u32),
}

impl ByteSync {
    /// The empty tree that has this key of SipHash, level base and page format.
    pub fn new(
        alloc: Global,
        key: &[u8; 16],
        level_base: NonZeroU8,
        page_format: PageFormat,
    ) -> ByteSync
        ensures { IsFresh key.now (non_zero_u8_get level_base) page_format result }
    {
        let tree = Builder::default()
            .with_hasher(SipHasher::new(key))
            .with_level_base(level_base)
            .with_page_format(page_format)
            .build(alloc);
        ByteSync {
            tree,
            session: None,
            about: 0,
            message: Vec::new(alloc),
            list: Vec::new(alloc),
        }
    }

    /// Sets a key to the digest of a value. Refused, all is as before.
    pub fn set(&mut self, alloc: Global, key: &[u8], value: &[u8]) -> Result<(), AllocError>
        ensures done { OnOk result (IsPairSet key.now value.now self.old self.new) }
        ensures unchanged { OnErr result (self.new ≡ self.old) }
    {
        let own_key = Vec::from_slice(alloc, key)?;
        let bytes = Vec::from_slice(alloc, value)?;
        let own_value = ByteValue { bytes };
        match self.tree.upsert(own_key, &own_value) {
            Ok(()) => Ok(()),
            Err(_) => Err(AllocError),
        }
    }

    /// Takes a key out, and returns whether it was there. Where it wasn't, and refused, all is as before.
    pub fn remove(&mut self, alloc: Global, key: &[u8]) -> Result<bool, AllocError>
        ensures done { IfOk result (λ found. IsPairDel key.now found self.old self.new) }
        ensures absent { IfOk result (λ found. found ≡ false → self.new ≡ self.old) }
        ensures unchanged { OnErr result (self.new ≡ self.old) }
    {
        let own_key = Vec::from_slice(alloc, key)?;
        match self.tree.remove(&own_key)? {
            None => Ok(false),
            Some(_) => Ok(true),
        }
    }

    /// The digest of the value at a key, where the key is there.
    pub fn find(&self, alloc: Global, key: &[u8]) -> Result<Option<[u8; 16]>, AllocError>
        ensures { IfOk result (λ found. found ≡ get bytes_cmp (pairs_of self.now.tree) key.now) }
    {
        let own_key = Vec::from_slice(alloc, key)?;
        match self.tree.value_hash(&own_key) {
            None => Ok(None),
            Some(digest) => Ok(Some(*digest.as_bytes())),
        }
    }

    /// How many keys the tree has, at most `usize::MAX`.
    pub fn count(&self) -> Result<usize, AllocError>
        ensures { IfOk result (λ count. count ≡ row_count (map_of self.now.tree)) }
    {
        let mut count: usize = 0;
        'nodes: for _node in self.tree.node_iter()? {
            count = count.saturating_add(1);
        }
        Ok(count)
    }

    /// The digest of the root page. It fills in the digests that pages lack.
    pub fn root_hash(&mut self) -> [u8; 16]
        ensures digest { result ≡ page_digest self.old.tree.format key_items self.old.tree.root }
        ensures kept { OnlyHashes self.old self.new }
    {
        let (digest, _) = self.tree.root_hash_counted();
        *digest.as_bytes()
    }

    /// Begins a catch-up in place of any that is under way, and keeps its first message. Refused, all is as before.
    pub fn ask(&mut self, alloc: Global) -> Result<(), AllocError>
        ensures begun { OnOk result (HasBegun self.old self.new) }
        ensures unchanged { OnErr result (self.new ≡ self.old) }
    {
        let about = self.count()?;
        let (session, message) = CatchingUp::begin_of(alloc, &self.tree)?;
        self.session = Some(session);
        self.about = about as u64;
        self.message = message;
        Ok(())
    }

    /// Gives a reply to the catch-up that is under way, and keeps its next message, or the rows that came. `None` where none is under way.
    pub fn take(&mut self, alloc: Global, reply: &[u8]) -> Option<Taken>
        ensures { TakesReply reply.now self.old self.new result }
    {
        let session = self.session.take()?;
        let about = self.about;
        match session.take_by(&mut self.tree, about, reply) {
            Ok(Next::Ask(session, message)) => {
                let len = message.len();
                self.message = message;
                if len == 0 {
                    return Some(Taken::Lost); // (no question is empty, but no clause says so of a tree alone)
                }
                self.session = Some(session);
                Some(Taken::Asks)
            }
            Ok(Next::Came(rows)) => {
                self.message = Vec::new(alloc);
                Some(self.keep(alloc, rows))
            }
            Err(TakeError::Session(error)) => {
                self.message = Vec::new(alloc);
                Some(Taken::Failed(status_of(&error)))
            }
            Err(TakeError::Tree(_)) => {
                self.message = Vec::new(alloc);
                Some(Taken::Failed(MEMORY))
            }
        }
    }

    /// Keeps rows as the list.
    fn keep(&mut self, alloc: Global, rows: Vec<(Vec<u8>, ByteValue)>) -> Taken
        ensures { IsKeptOf rows.items result self.old self.new }
    {
        match encode(alloc, &rows) {
            Ok(list) => {
                self.list = list;
                Taken::Kept
            }
            Err(_) => Taken::Lost,
        }
    }

    /// Keeps the reply to a question as the message; or the list of what it needs of the rows; or the refusal, where the bytes are no question or the
    /// asking side has other settings. Where memory is refused, message and list are as before.
    pub fn answer(&mut self, alloc: Global, question: &[u8]) -> u32
        ensures done { result ≡ 0 → IsAnswered question.now self.old self.new }
        ensures needs { result ≡ 8 → IsNeeded question.now self.new }
        ensures refused { MeansRefusal result question.now self.new.tree self.new.message }
        ensures kept { KeepsOrNeeds result self.old self.new }
        ensures status { (result ≡ 0) ⊎ (result ≡ 1) ⊎ (result ≡ 2) ⊎ (result ≡ 6) ⊎ (result ≡ 8) }
    {
        let asked = match decode_question::<Vec<u8>>(alloc, question) {
            Ok(asked) => asked,
            Err(ReadError::Memory) => return MEMORY,
            Err(ReadError::Unexpected { .. }) => {
                return refuse(alloc, &mut self.message, MALFORMED);
            }
        };
        match needs_of(alloc, &asked) {
            Ok(Some(list)) => {
                self.list = list;
                NEEDS_ROWS
            }
            Ok(None) => self.answer_alone(alloc, &asked, question),
            Err(_) => MEMORY,
        }
    }

    /// Keeps the reply to a question that needs no rows as the message; or the refusal.
    fn answer_alone(&mut self, alloc: Global, asked: &Question<Vec<u8>>, question: &[u8]) -> u32
        requires asks { question.now ≡ question_bytes key_encoding asked.now }
        ensures done { result ≡ 0 → IsAnswered question.now self.old self.new }
        ensures refused { MeansRefusal result question.now self.new.tree self.new.message }
        ensures kept { KeepsSide result self.old self.new }
        ensures list { SameList self.old self.new }
        ensures status { (result ≡ 0) ⊎ (result ≡ 1) ⊎ (result ≡ 2) ⊎ (result ≡ 6) }
    {
        let Ok(count) = self.count_for(asked) else {
            return MEMORY;
        };
        let rows = unread(alloc, count);
        match answer_by(alloc, &mut self.tree, &rows, question, MOST_BYTES) {
            Ok(reply) => {
                self.message = reply;
                DONE
            }
            Err(KeptError::Answer(error)) => fail(alloc, &mut self.message, error),
            Err(KeptError::Kept(_)) => MEMORY,
        }
    }

    /// How many keys there are, where the question asks for that; else 0.
    fn count_for(&self, asked: &Question<Vec<u8>>) -> Result<u64, AllocError>
        ensures { IfOk result (CountsFor asked.now self.now) }
    {
        match asked {
            Question::Root(_) => Ok(self.count()? as u64),
            Question::Outlines(_, _) => Ok(0),
            Question::Nodes(_, _) => Ok(0),
            Question::RowsAt(_) => Ok(0),
            Question::RowsIn(_) => Ok(0),
        }
    }

    /// Keeps the reply to a question as the message, made of rows that are handed in as a list: of all that it asks for, or of the first of them. The
    /// reply ends with the entry that brings it to this many bytes. Or keeps the refusal.
    pub fn answer_with(
        &mut self,
        alloc: Global,
        question: &[u8],
        rows: &[u8],
        is_all: bool,
        most_bytes: usize,
    ) -> u32
        ensures done { result ≡ 0 → IsAnsweredWith question.now rows.now self.new }
        ensures within { result ≡ 0 → EndsBy most_bytes question.now self.new }
        ensures refused { MeansRefusal result question.now self.new.tree self.new.message }
        ensures kept { KeepsSide result self.old self.new }
        ensures list { SameList self.old self.new }
        ensures status { (result ≡ 0) ⊎ (result ≡ 1) ⊎ (result ≡ 2) ⊎ (result ≡ 4) ⊎ (result ≡ 6) ⊎ (result ≡ 8) }
    {
        let handed = match Handed::of_list(alloc, rows, is_all) {
            Ok(handed) => handed,
            Err(ListError::Memory) => return MEMORY,
            Err(ListError::Malformed) => return ARGUMENT,
        };
        match answer_by(alloc, &mut self.tree, &handed, question, most_bytes) {
            Ok(reply) => {
                self.message = reply;
                DONE
            }
            Err(KeptError::Answer(error)) => fail(alloc, &mut self.message, error),
            Err(KeptError::Kept(error)) => handed_status(error),
        }
    }
}

/// Rows of which only the number is known.
fn unread(alloc: Global, count: u64) -> Unread
    ensures { result.count ≡ count }
{
    let row = (
        Vec::new(alloc),
        ByteValue {
            bytes: Vec::new(alloc),
        },
    );
    Unread { count, row }
}

/// The status of rows that don't tell what a question asks for.
fn handed_status(error: HandedError) -> u32
    ensures { (result ≡ 1) ⊎ (result ≡ 4) ⊎ (result ≡ 8) }
{
    match error {
        HandedError::Memory => MEMORY,
        HandedError::Rows => NEEDS_ROWS,
        HandedError::Count => ARGUMENT,
    }
}
