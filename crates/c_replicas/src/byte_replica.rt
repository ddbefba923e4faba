//! What a handle holds: a replica of byte strings, the catch-up that it is in, and a message.
ghost use Rattle.std.specs.Prelude.{◌≡◌, ◌⊎◌, None, Some, OnOk, OnErr, IfOk, length};
ghost use Rattle.std.specs.Int.NonZero.{non_zero_u8_get};
ghost use Rattle.c_values.specs.Keys.{key_items, key_cmp};
ghost use Rattle.c_values.specs.Lists.{row_list};
ghost use Rattle.key_order.specs.Map.{IsMap};
ghost use Rattle.merkle_tree_theory.specs.Stream.{page_digest};
ghost use Rattle.c_rows.specs.Ends.{MeansRefusal};
ghost use Rattle.c_replicas.specs.Calls.{HasBegun, IsAnswered, IsFresh, IsPut, JoinsOrCuts, KeepsReplica, OnlyHashes, TakesReply};
ghost use Rattle.c_replicas.specs.Values.{IsFoundAt, byte_rows};

use c_rows::status::status_of;
use c_rows::{ByteValue, encode, fail};
use c_values::status::DONE;
use merkle_digest::SipHasher;
use merkle_replica::{JoinRefused, Replica};
use merkle_search_tree::builder::{Builder, PageFormat};
use merkle_wire::{CatchingUp, Next, answer};
use std::alloc::{AllocError, Global};
use std::num::NonZeroU8;

/// A replica of byte strings, a catch-up that waits for a reply, if one is under way, and the message that is to be sent next, which is empty where
/// there is none.
pub struct ByteReplica {
    pub replica: Replica<Vec<u8>, ByteValue, SipHasher, 16>,
    pub session: Option<CatchingUp<Vec<u8>, ByteValue>>,
    pub message: Vec<u8>,
}

// Written out, so that a caller doesn't prove again how each part is dropped.
impl Drop for ByteReplica {
    fn drop(self) {
        let ByteReplica {
            replica: _,
            session: _,
            message: _,
        } = self;
    }
}

/// What comes after a reply.
#[derive(Drop)]
pub enum Taken {
    /// The message that is kept is to be sent.
    Asks,
    /// The catch-up is over, and this many rows are joined.
    Joined(usize),
    /// The catch-up is over, and memory ran out after this many rows.
    Cut(usize),
    /// The catch-up is over, no row is joined, and this is the status.
    Failed(u32),
}

impl ByteReplica {
    /// The replica without rows that has this key of SipHash, level base and page format.
    pub fn new(
        alloc: Global,
        key: &[u8; 16],
        level_base: NonZeroU8,
        page_format: PageFormat,
    ) -> ByteReplica
        ensures { IsFresh key.now (non_zero_u8_get level_base) page_format result }
    {
        let builder = Builder::default()
            .with_hasher(SipHasher::new(key))
            .with_level_base(level_base)
            .with_page_format(page_format);
        ByteReplica {
            replica: Replica::new(alloc, builder),
            session: None,
            message: Vec::new(alloc),
        }
    }

    /// Joins a value at a key: the greater one of it and the one that is there stays. Refused, all is as before.
    pub fn put(&mut self, alloc: Global, key: &[u8], value: &[u8]) -> Result<(), AllocError>
        ensures done { OnOk result (IsPut key.now value.now self.old self.new) }
        ensures unchanged { OnErr result (self.new ≡ self.old) }
    {
        let own_key = Vec::from_slice(alloc, key)?;
        let bytes = Vec::from_slice(alloc, value)?;
        self.replica.put(own_key, ByteValue { bytes })
    }

    /// The bytes of the value at a key, where the key is there.
    pub fn get(&self, alloc: Global, key: &[u8]) -> Result<Option<&[u8]>, AllocError>
        ensures { IfOk result (IsFoundAt self.now.replica key.now) }
    {
        let own_key = Vec::from_slice(alloc, key)?;
        match self.replica.row_at(&own_key) {
            Some(row) => Ok(Some(row.1.bytes.as_slice())),
            None => Ok(None),
        }
    }

    /// How many rows there are.
    pub fn count(&self) -> usize
        ensures { result ≡ length self.now.replica.rows }
    {
        self.replica.rows().len()
    }

    /// The rows as a list.
    pub fn rows(&self, alloc: Global) -> Result<Vec<u8>, AllocError>
        ensures { IfOk result (λ out. out.items ≡ row_list (byte_rows self.now.replica)) }
    {
        encode(alloc, self.replica.rows())
    }

    /// The digest of the root page. It fills in the digests that pages lack.
    pub fn root_hash(&mut self) -> [u8; 16]
        ensures digest { result ≡ page_digest self.old.replica.tree.format key_items self.old.replica.tree.root }
        ensures kept { OnlyHashes self.old self.new }
    {
        self.replica.hash();
        match self.replica.tree().root_hash_cached() {
            Some(digest) => *digest.as_bytes(),
            None => unreachable!(),
        }
    }

    /// Keeps the reply to a question as the message; or the refusal, where the bytes are no question or the asking side has other settings. Where
    /// memory is refused, the message is as before.
    pub fn answer(&mut self, alloc: Global, question: &[u8]) -> u32
        ensures done { result ≡ 0 → IsAnswered question.now self.old self.new }
        ensures refused { MeansRefusal result question.now self.new.replica.tree self.new.message }
        ensures kept { KeepsReplica result self.old self.new }
        ensures status { (result ≡ 0) ⊎ (result ≡ 1) ⊎ (result ≡ 2) ⊎ (result ≡ 6) }
    {
        match answer(alloc, &mut self.replica, question) {
            Ok(reply) => {
                self.message = reply;
                DONE
            }
            Err(error) => fail(alloc, &mut self.message, error),
        }
    }

    /// Begins a catch-up in place of any that is under way, and keeps its first message. Refused, all is as before.
    pub fn ask(&mut self, alloc: Global) -> Result<(), AllocError>
        ensures begun { OnOk result (HasBegun self.old self.new) }
        ensures unchanged { OnErr result (self.new ≡ self.old) }
    {
        let (session, message) = CatchingUp::begin(alloc, &self.replica)?;
        self.session = Some(session);
        self.message = message;
        Ok(())
    }

    /// Gives a reply to the catch-up that is under way, and keeps its next message, or joins the rows that came. `None` where none is under way.
    pub fn take(&mut self, alloc: Global, reply: &[u8]) -> Option<Taken>
        ensures { TakesReply reply.now self.old self.new result }
    {
        let session = self.session.take()?;
        match session.take(&mut self.replica, reply) {
            Ok(Next::Ask(session, message)) => {
                self.session = Some(session);
                self.message = message;
                Some(Taken::Asks)
            }
            Ok(Next::Came(rows)) => {
                self.message = Vec::new(alloc);
                Some(self.join(rows))
            }
            Err(error) => {
                self.message = Vec::new(alloc);
                Some(Taken::Failed(status_of(&error)))
            }
        }
    }

    /// Joins the rows that came to a catch-up that is over.
    fn join(&mut self, rows: Vec<(Vec<u8>, ByteValue)>) -> Taken
        requires { IsMap key_cmp rows.items }
        ensures { JoinsOrCuts rows.items result self.old self.new }
    {
        let count = rows.len();
        match self.replica.join_rows(rows) {
            Ok(()) => {}
            Err(JoinRefused::Memory(done)) => return Taken::Cut(done),
            Err(JoinRefused::NotAscending(_)) => unreachable!(),
        }
        Taken::Joined(count)
    }
}
