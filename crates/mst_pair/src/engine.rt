//! The engine: two replicas, and what the lines do to them.
ghost use Rattle.std.specs.Prelude.{◌≡◌, ◌↔◌, [], if◌then◌else◌, map, length, OnOk, OnErr, IfOk, IsTrue};
ghost use Rattle.merkle_replica.specs.Answers.{spans_of, answer_of};
ghost use Rattle.mst_pair.specs.Engine.{MayAskOther, PullsFromOther, StopsInPull, PullByTurns, StopsInTurns};
ghost use Rattle.mst_pair.specs.Pages.{digest_of_rows};
ghost use Rattle.mst_pair.specs.Replicas.{Replicas, empty_replicas, rows, other_rows, HasNoRow, JoinsRow, DeletesRow};

use crate::text_replica::{TextReplica, root_hash_of};
use merkle_digest::RootHash;
use merkle_replica::{PullError, Pulled, Replica, TurnsError, pull_by_turns};
use merkle_search_tree::builder::{Builder, PageFormat};
use std::alloc::{AllocError, Global};
use std::marker::Model;

/// The name of a replica: `a` or `b`.
#[derive(Clone, Copy, Debug, PartialEq, Eq)]
pub enum ReplicaName {
    A,
    B,
}

/// The two replicas that lines are carried out on, the page format of their trees, and what makes room for what they hold. A contract
/// sees their rows and the format.
#[derive(Drop)]
pub struct Engine {
    alloc: Global,
    pub(crate) a: TextReplica,
    pub(crate) b: TextReplica,
    format: PageFormat,
}

impl Model for Engine {
    ghost use Rattle.mst_pair.specs.Pages.{HasDefaults};
    ghost use Rattle.mst_pair.specs.Replicas.{Replicas};

    ghost Value = { Replicas };

    ghost view = { λ e. record { a = e.a.rows; b = e.b.rows; format = e.format } };

    ghost invariant = { λ e. HasDefaults e.format e.a × HasDefaults e.format e.b };
}

impl Engine {
    /// Two empty replicas in format 1. It takes no memory.
    pub fn new(alloc: Global) -> Self
        ensures { result ≡ empty_replicas }
    {
        Engine {
            alloc,
            a: Replica::new(alloc, Builder::default()),
            b: Replica::new(alloc, Builder::default()),
            format: PageFormat::V1,
        }
    }

    /// Makes both replicas anew in a page format, where neither has a row, and returns whether it did. It takes no memory.
    pub fn set_format(&mut self, format: PageFormat) -> bool
        ensures empty { IsTrue result ↔ HasNoRow self.old }
        ensures new { self.new ≡ (if result then record { a = []; b = []; format = format } else self.old) }
    {
        if !self.a.rows().is_empty() || !self.b.rows().is_empty() {
            return false;
        }
        self.a = Replica::new(self.alloc, Builder::default().with_page_format(format));
        self.b = Replica::new(self.alloc, Builder::default().with_page_format(format));
        self.format = format;
        true
    }

    /// The rows of a replica, ascending by key.
    pub fn rows(&self, name: ReplicaName) -> &[(String, u64)]
        ensures { result.now ≡ rows self.now name }
    {
        match name {
            ReplicaName::A => self.a.rows(),
            ReplicaName::B => self.b.rows(),
        }
    }

    /// Joins a row into a replica. If memory runs out, nothing changes.
    pub fn join_row(&mut self, name: ReplicaName, key: &str, number: u64) -> Result<(), AllocError>
        ensures ok { OnOk result (JoinsRow (rows self.old name) (rows self.new name) key.now number) }
        ensures other { other_rows self.new name ≡ other_rows self.old name }
        ensures format { self.new.format ≡ self.old.format }
        ensures err { OnErr result (self.new ≡ self.old) }
    {
        let key = String::from_str(self.alloc, key)?;
        match name {
            ReplicaName::A => self.a.put(key, number),
            ReplicaName::B => self.b.put(key, number),
        }
    }

    /// Takes the row of a key out of a replica, and returns whether there was one; a pull may bring it back. If memory runs out,
    /// nothing changes.
    pub fn delete_row(&mut self, name: ReplicaName, key: &str) -> Result<bool, AllocError>
        ensures ok { IfOk result (λ found. DeletesRow (rows self.old name) (rows self.new name) key.now found) }
        ensures other { other_rows self.new name ≡ other_rows self.old name }
        ensures format { self.new.format ≡ self.old.format }
        ensures err { OnErr result (self.new ≡ self.old) }
    {
        let text = String::from_str(self.alloc, key)?;
        match name {
            ReplicaName::A => self.a.del(&text),
            ReplicaName::B => self.b.del(&text),
        }
    }

    /// The root hash of a replica.
    pub fn root_hash(&mut self, name: ReplicaName) -> RootHash
        ensures digest { result ≡ digest_of_rows self.old.format (rows self.old name) }
        ensures same { self.new ≡ self.old }
    {
        match name {
            ReplicaName::A => root_hash_of(&mut self.a),
            ReplicaName::B => root_hash_of(&mut self.b),
        }
    }

    /// The ranges of keys that a replica may ask the other for.
    pub fn ranges_to_ask(&mut self, name: ReplicaName) -> Result<Vec<(String, String)>, AllocError>
        ensures ranges { IfOk result (λ found. MayAskOther self.old name (spans_of found.items)) }
        ensures same { self.new ≡ self.old }
    {
        match name {
            ReplicaName::A => self.a.ranges_to_ask(&mut self.b),
            ReplicaName::B => self.b.ranges_to_ask(&mut self.a),
        }
    }

    /// Has a replica pull from the other.
    pub fn pull(&mut self, name: ReplicaName) -> Result<Pulled<String>, PullError<String>>
        ensures ok { IfOk result (λ pulled. PullsFromOther self.old name self.new (answer_of pulled)) }
        ensures err { OnErr result (StopsInPull self.old name self.new) }
        ensures other { other_rows self.new name ≡ other_rows self.old name }
        ensures format { self.new.format ≡ self.old.format }
    {
        match name {
            ReplicaName::A => self.a.pull(&mut self.b),
            ReplicaName::B => self.b.pull(&mut self.a),
        }
    }

    /// Whether the root hashes are equal.
    pub fn is_same(&mut self) -> bool
        ensures value { IsTrue result ↔ (digest_of_rows self.old.format self.old.a ≡ digest_of_rows self.old.format self.old.b) }
        ensures same { self.new ≡ self.old }
    {
        root_hash_of(&mut self.a) == root_hash_of(&mut self.b)
    }

    /// Has the replicas pull from each other by turns, `a` first.
    pub fn take_turns(&mut self, count: u8) -> Result<Vec<Pulled<String>>, TurnsError<String>>
        ensures length { IfOk result (λ all. length all.items ≡ count) }
        ensures format { self.new.format ≡ self.old.format }
        ensures ok { IfOk result (λ all. PullByTurns self.old self.new (map answer_of all.items)) }
        ensures err { OnErr result (StopsInTurns self.old.format count self.old.a self.old.b self.new.a self.new.b) }
    {
        pull_by_turns(self.alloc, &mut self.a, &mut self.b, usize::from(count))
    }
}
