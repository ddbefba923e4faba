//! The asking side: what to ask next, and the rows that came in the end.
ghost use Rattle.std.specs.Prelude.{◌≡◌, ◌≤◌, IfOk, IfErr, IfSome, length, ◌⊎◌};
ghost use Rattle.merkle_replica.specs.Contents.{side};
ghost use Rattle.merkle_tree_theory.specs.State.{SameSettings, map_of};
ghost use Rattle.merkle_wire.specs.ByDigests.{IsStoppedWith};
ghost use Rattle.merkle_wire.specs.Underway.{nothing};
ghost use Rattle.merkle_wire.specs.ItsRows.{ForRowsOf, digests_of};
ghost use Rattle.merkle_wire.specs.Limits.{Allows};
ghost use Rattle.merkle_wire.specs.Next.{GoesOn, HasLeft, IsAsked, IsCame, IsEnded, IsStopped, OnlyAskedFor, StaysWithin, IfAsks, IsNext, HaveTwins};
ghost use Rattle.merkle_wire.specs.Questions.{AsksForRoot, IsQuestion, question_bytes};
ghost use Rattle.merkle_wire.specs.Replies.{IsReply};
ghost use Rattle.merkle_wire.specs.Sessions.{IsKeyOf};
ghost use Rattle.merkle_wire.specs.Tellings.{IsOwnReply};
ghost use Rattle.merkle_wire.specs.declared.session_error.SessionError.TheVariants.{Memory, Twice};

use crate::answering::own_reply;
use crate::kept_side::KeptSide;
use crate::kept_tree::{KeptTree, first_key, first_row_key};
use crate::limits::Limits;
use crate::question::{Question, encode_question};
use crate::replies::take_reply;
use crate::rounds::rounds_with;
use crate::session_error::{SessionError, TakeError};
use crate::settings::{Settings, settings_of, settings_with};
use crate::within::rows_ascend;
use crate::work::Work;
use merkle_bytes::Decode;
use merkle_digest::{Hasher, Key};
use merkle_replica::{Join, Replica, RowHasher};
use merkle_search_tree::MerkleSearchTree;
use merkle_search_tree::laws::every_tree_is_sound;
use std::alloc::{AllocError, Global};
use std::cmp::Ordering;
use std::marker::Model;

/// A catch-up that waits for a reply.
///
/// A contract sees what was asked, what has been found, how many rounds of outlines were asked for, and what is left of the limits.
///
/// ```rust crates/merkle_wire/src/session.rt
/// 'exchanges: loop {
///     match exchange(alloc, replica, peer, session, message)? {
///         Next::Came(rows) => return Ok(rows),
///         Next::Ask(next, question) => {
///             session = next;
///             message = question;
///         }
///     }
/// }
/// ```
pub struct CatchingUp<K, V> {
    alloc: Global,
    asked: Question<K>,
    work: Work<K, V>,
    rounds: u32,
    left: Limits,
}

// Written out, so that a caller doesn't prove again how each part is dropped.
impl<K: Drop, V: Drop> Drop for CatchingUp<K, V> {
    fn drop(self) {
        let CatchingUp {
            alloc: _,
            asked: _,
            work: _,
            rounds: _,
            left: _,
        } = self;
    }
}

impl<K, V> Model for CatchingUp<K, V> {
    ghost use Rattle.std.specs.Prelude.{◌≤◌};
    ghost use Rattle.merkle_wire.specs.Underway.{Underway};

    ghost Value = { Underway K V };

    ghost view = { λ s. record { asked = s.asked; found = s.work; rounds = s.rounds; left = s.left } };

    ghost invariant = { λ s. s.rounds ≤ 256 };
}

/// What comes after a reply.
#[derive(Drop)]
pub enum Next<K, V> {
    /// This message is to be sent, and its reply to be given to the catch-up.
    Ask(CatchingUp<K, V>, Vec<u8>),
    /// The peer's rows that this side lacks, or has with another digest, in ascending key order: they are to be joined.
    Came(Vec<(K, V)>),
}

impl<K: Key + Decode, V: Join + Decode> CatchingUp<K, V> {
    /// Begins a catch-up of a replica, with the default limits. Returns it with the first message, which has the replica's settings.
    ///
    /// # Errors
    ///
    /// Out of memory.
    pub fn begin<H: RowHasher<N, K, V>, const N: usize>(
        alloc: Global,
        replica: &Replica<K, V, H, N>,
    ) -> Result<(Self, Vec<u8>), AllocError>
        ensures settings { IfOk result (λ begun. AsksForRoot ⟦<H as Hasher<N, K>>⟧.digest_of N
            (digests_of replica.now.tree) begun.0.asked) }
        ensures asks { IfOk result (λ begun. begun.1.items ≡ question_bytes K.encoding begun.0.asked) }
        ensures keys { IfOk result (λ begun. IsQuestion (IsKeyOf K.cmp replica.now.rows) begun.0.asked) }
        ensures nothing { IfOk result (λ begun. (begun.0.found ≡ nothing) × (begun.0.rounds ≡ 0)) }
    {
        let key = first_row_key(replica)?;
        begin(alloc, settings_with(alloc, replica, key)?)
    }

    /// Begins a catch-up of a side whose rows are kept anywhere, with the tree of their digests in memory. Returns it with the first message, which has
    /// the settings of the tree.
    ///
    /// # Errors
    ///
    /// Out of memory.
    pub fn begin_of<H: RowHasher<N, K, V>, const N: usize>(
        alloc: Global,
        tree: &MerkleSearchTree<K, V, H, N>,
    ) -> Result<(Self, Vec<u8>), AllocError>
        ensures settings { IfOk result (λ begun. AsksForRoot ⟦<H as Hasher<N, K>>⟧.digest_of N (digests_of tree.now) begun.0.asked) }
        ensures asks { IfOk result (λ begun. begun.1.items ≡ question_bytes K.encoding begun.0.asked) }

        // Whatever rows the tree has the digests of, the key that is told is one of theirs.
        ensures keys { IfOk result (λ begun. ForRowsOf H.laws (digests_of tree.now) (λ local. IsQuestion (IsKeyOf K.cmp local.rows) begun.0.asked)) }

        ensures nothing { IfOk result (λ begun. (begun.0.found ≡ nothing) × (begun.0.rounds ≡ 0)) }
    {
        let key = first_key(tree)?;
        begin(alloc, settings_with(alloc, tree, key)?)
    }

    /// Begins a catch-up of a side whose rows and whose tree are kept anywhere. Returns it with the first message, which has the settings of the tree.
    ///
    /// # Errors
    ///
    /// Out of memory, or the tree can't be read.
    pub fn begin_by<H: RowHasher<N, K, V>, T: KeptTree<N, K, V, H>, const N: usize>(
        alloc: Global,
        tree: &mut T,
    ) -> Result<(Self, Vec<u8>), T::Error>
        ensures settings { T.is_sound tree.new → IfOk result (λ begun. AsksForRoot ⟦<H as Hasher<N, K>>⟧.digest_of N
            (T.kept tree.old).digests begun.0.asked) }
        ensures asks { IfOk result (λ begun. begun.1.items ≡ question_bytes K.encoding begun.0.asked) }

        // Whatever rows the tree has the digests of, the key that is told is one of theirs.
        ensures keys { T.is_sound tree.new → IfOk result (λ begun. ForRowsOf H.laws (T.kept tree.old).digests
            (λ local. IsQuestion (IsKeyOf K.cmp local.rows) begun.0.asked)) }

        ensures nothing { IfOk result (λ begun. (begun.0.found ≡ nothing) × (begun.0.rounds ≡ 0)) }
        ensures kept { T.is_sound tree.new → T.kept tree.new ≡ T.kept tree.old }
        ensures steady { T.is_sound tree.new → T.is_sound tree.old }
    {
        let settings = settings_of(alloc, tree)?;
        Ok(begin(alloc, settings)?)
    }

    /// The same catch-up under these limits, which count from here on.
    ///
    /// ```rust crates/merkle_wire_tests/src/limits.rt
    /// let (session, message) = CatchingUp::begin(alloc, &local)?;
    /// let session = session.within(limits);
    /// ```
    pub fn within(self, limits: Limits) -> Self
        ensures { result ≡ record self { left = limits } }
    {
        let mut session = self;
        session.left = limits;
        session
    }

    /// How many rounds of outlines were asked for: 256 at most.
    pub fn rounds(&self) -> u32
        ensures rounds { result ≡ self.now.rounds }
        ensures few { result ≤ 256 }
    {
        self.rounds
    }

    /// What this side itself would reply to the question that is asked. Much of it may be what the peer replies, which can then be told as what it differs
    /// by from this (the crate `merkle_delta`). There is none if the question is about the root or for values at keys, and if it is for all rows in gaps
    /// only if `with_rows` is true. The replica keeps its rows; pages that lack a digest get one. It takes time linear in the reply.
    ///
    /// # Errors
    ///
    /// Out of memory.
    pub fn own_reply<H: RowHasher<N, K, V>, const N: usize>(
        &self,
        replica: &mut Replica<K, V, H, N>,
        with_rows: bool,
    ) -> Result<Option<Vec<u8>>, AllocError>
        ensures own { IfOk result (λ own. IfSome own (λ reply. IsReply H.laws N K.encoding V.encoding
            replica.old.rows replica.new.tree self.now.asked reply.items)) }
        ensures rows { replica.new.rows ≡ replica.old.rows }
        ensures settings { SameSettings replica.old.tree replica.new.tree }
    {
        self.own_reply_by(replica, &(), with_rows)
    }

    /// The same of a side whose tree and rows are kept anywhere, with `beside` as in [`answer_by`](crate::answer_by).
    ///
    /// # Errors
    ///
    /// Out of memory, or the tree or the rows can't be read.
    pub fn own_reply_by<H: RowHasher<N, K, V>, S: KeptSide<N, K, V, H, R>, R, const N: usize>(
        &self,
        side: &mut S,
        beside: &R,
        with_rows: bool,
    ) -> Result<Option<Vec<u8>>, S::Error>
        ensures own { S.is_sound side.new → IfOk result (IsOwnReply H.laws N K.encoding V.encoding
            (S.contents side.old beside.now) (S.contents side.new beside.now) self.now.asked) }
        ensures rows { S.is_sound side.new → (S.contents side.new beside.now).rows ≡ (S.contents side.old beside.now).rows }
        ensures map { S.is_sound side.new → map_of (S.contents side.new beside.now).tree ≡ map_of (S.contents side.old beside.now).tree }
        ensures settings { S.is_sound side.new → SameSettings (S.contents side.old beside.now).tree (S.contents side.new beside.now).tree }
        ensures steady { S.is_sound side.new → S.is_sound side.old }
    {
        if !self.asked.is_shared(with_rows) {
            return Ok(None);
        }
        own_reply(self.alloc, side, beside, &self.asked)
    }

    /// Takes a reply. It records whatever this side lacks, and returns the next question, or the rows once nothing is left to ask. The replica keeps
    /// its rows; pages that lack a digest get one.
    ///
    /// The next question asks for a page of the peer if this side's page over the same gap has another digest, and skips it only if this side has a
    /// page with its digest. It asks for the nodes of a page if and only if their one digest shows that this side hasn't all of them.
    ///
    /// It looks up each key and each page that came, down one path of the tree. It takes memory in proportion to the bytes that came.
    ///
    /// # Errors
    ///
    /// [`SessionError`]
    pub fn take<H: RowHasher<N, K, V>, const N: usize>(
        self,
        replica: &mut Replica<K, V, H, N>,
        reply: &[u8],
    ) -> Result<Next<K, V>, SessionError>
        ensures next { IfOk result (IsNext H.laws N K.encoding V.encoding (side replica.old) self reply.now) }
        ensures few { IfOk result (IfAsks (λ session. session.rounds ≤ 256)) }

        // Whatever the peer sends, each reply is taken off the limits, so a session ends after as many as they allow.
        ensures limits { IfOk result (StaysWithin self (length reply.now)) }

        // What is added to the rows that were found lies in the gaps, or at the keys, that were asked for.
        ensures asked_for { IfOk result (OnlyAskedFor K.cmp self) }

        // A reply to what was asked is taken, unless memory or a limit doesn't allow it, or the catch-up can't go on after it: outlines
        // are to be asked for after 256 rounds of them, or two of the rows that were found have equal keys.
        ensures ended { IfErr result (IsStopped H.laws N K.encoding V.encoding K.is_value V.is_value
            (side replica.old) self reply.now) }

        ensures rows { replica.new.rows ≡ replica.old.rows }
        ensures settings { SameSettings replica.old.tree replica.new.tree }
    {
        let count = replica.rows().len() as u64;
        every_tree_is_sound(replica.tree());
        match self.take_by(replica, count, reply) {
            Ok(next) => Ok(next),
            Err(TakeError::Session(error)) => Err(error),
            Err(TakeError::Tree(_)) => Err(SessionError::Memory),
        }
    }

    /// Takes a reply, as [`take`](Self::take) does, for a side whose rows and whose tree are kept anywhere. `count` is about how many rows there are, by
    /// which all of the peer's are asked for where they are few; the answer is right whatever it is.
    ///
    /// # Errors
    ///
    /// [`TakeError`]
    pub fn take_by<H: RowHasher<N, K, V>, T: KeptTree<N, K, V, H>, const N: usize>(
        self,
        tree: &mut T,
        count: u64,
        reply: &[u8],
    ) -> Result<Next<K, V>, TakeError<T::Error>>
        // Whatever rows the tree has the digests of, it is what a replica with them makes of the reply.
        ensures next { T.is_sound tree.new → IfOk result (λ next. ForRowsOf H.laws (T.kept tree.old).digests
            (λ own. IsNext H.laws N K.encoding V.encoding own self reply.now next)) }
        ensures few { IfOk result (IfAsks (λ session. session.rounds ≤ 256)) }
        ensures limits { IfOk result (StaysWithin self (length reply.now)) }
        ensures asked_for { T.is_sound tree.new → IfOk result (λ next. ForRowsOf H.laws (T.kept tree.old).digests (λ local. OnlyAskedFor K.cmp self next)) }
        ensures ended { T.is_sound tree.new → IfErr result (IsStoppedWith H.laws (T.kept tree.old).digests N K.encoding V.encoding
            K.is_value V.is_value self reply.now) }
        ensures kept { T.is_sound tree.new → T.kept tree.new ≡ T.kept tree.old }
        ensures steady { T.is_sound tree.new → T.is_sound tree.old }
    {
        let CatchingUp {
            alloc,
            asked,
            work,
            rounds,
            left,
        } = self;
        let left = left.after(reply.len())?;
        let mut work = work;
        let again = take_reply(alloc, tree, count, asked, reply, &mut work)?;
        left.check_rows(work.row_count())?;
        match again {
            Some(question) => Ok(ask(alloc, question, work, rounds, left)?),
            None => Ok(go_on(alloc, work, rounds, left, N)?),
        }
    }
}

/// A catch-up that begins with these settings.
fn begin<K: Key + Decode, V: Join + Decode>(
    alloc: Global,
    settings: Settings<K>,
) -> Result<(CatchingUp<K, V>, Vec<u8>), AllocError>
    ensures asked { IfOk result (λ begun. begun.0.asked ≡ Question.Root settings) }
    ensures asks { IfOk result (λ begun. begun.1.items ≡ question_bytes K.encoding begun.0.asked) }
    ensures nothing { IfOk result (λ begun. (begun.0.found ≡ nothing) × (begun.0.rounds ≡ 0)) }
{
    let asked = Question::Root(settings);
    let message = encode_question(alloc, &asked)?;
    let session = CatchingUp {
        alloc,
        asked,
        work: Work::new(alloc),
        rounds: 0,
        left: Limits::default(),
    };
    Ok((session, message))
}

/// Goes on where all that was asked for came: asks for what is found, or hands out the rows where there is nothing.
fn go_on<K: Key + Decode, V: Join + Decode>(
    alloc: Global,
    work: Work<K, V>,
    rounds: u32,
    left: Limits,
    digest_bytes: usize,
) -> Result<Next<K, V>, SessionError>
    requires few { rounds ≤ 256 }
    requires limits { Allows left.rows (length work.rows) }
    ensures goes_on { IfOk result (GoesOn K.cmp K.encoding rounds work) }
    ensures few { IfOk result (IfAsks (λ session. session.rounds ≤ 256)) }
    ensures limits { IfOk result (HasLeft left) }
    ensures ended { IfErr result (IsEnded K.cmp rounds work) }
{
    let mut work = work;
    match work.next_question(digest_bytes)? {
        None => came(work.into_rows()),
        Some(question) => {
            let rounds = rounds_with(rounds, &question)?;
            ask(alloc, question, work, rounds, left)
        }
    }
}

/// Asks.
fn ask<K: Key + Decode, V: Join + Decode>(
    alloc: Global,
    question: Question<K>,
    work: Work<K, V>,
    rounds: u32,
    left: Limits,
) -> Result<Next<K, V>, SessionError>
    requires few { rounds ≤ 256 }
    requires limits { Allows left.rows (length work.rows) }
    ensures asked { IfOk result (IsAsked K.encoding question work rounds) }
    ensures few { IfOk result (IfAsks (λ session. session.rounds ≤ 256)) }
    ensures limits { IfOk result (HasLeft left) }
    ensures memory { IfErr result (λ error. error ≡ Memory) }
{
    let message = encode_question(alloc, &question)?;
    let session = CatchingUp {
        alloc,
        asked: question,
        work,
        rounds,
        left,
    };
    Ok(Next::Ask(session, message))
}

/// The rows in ascending key order.
fn came<K: Key + Decode, V: Join + Decode>(rows: Vec<(K, V)>) -> Result<Next<K, V>, SessionError>
    ensures came { IfOk result (IsCame K.cmp rows.items) }
    ensures ended { IfErr result (λ error. (error ≡ Memory) ⊎ ((error ≡ Twice) × HaveTwins K.cmp rows.items)) }
{
    let mut rows = rows;
    rows.sort_by(
        |a: &(K, V), b: &(K, V)| -> Ordering
            ensures { result ≡ K.cmp a.now.0 b.now.0 }
        { a.0.cmp(&b.0) },
    )?;
    if rows_ascend(&rows) {
        return Ok(Next::Came(rows));
    }
    Err(SessionError::Twice)
}
