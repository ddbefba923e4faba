//! What a catch-up has found and is still to ask for.
ghost use Rattle.std.specs.Prelude.{◌≡◌, ◌++◌, ◌∷◌, [], cond, not, length, IfOk, OnOk};
ghost use Rattle.merkle_wire.specs.Underway.{IsAskedOf};
ghost use Rattle.merkle_wire.specs.Gaps.{owned_gap};

use crate::gaps::OwnedGap;
use crate::question::Question;
use crate::wanted::Wanted;
use std::alloc::{AllocError, Global};
use std::marker::Model;

/// What a catch-up has found and is still to ask for.
#[derive(Drop)]
pub(crate) struct Work<K, V> {
    alloc: Global,
    /// The gaps of pages of the peer that this side doesn't have, right below those that were looked at last.
    below: Vec<OwnedGap<K>>,
    /// The gaps of pages of the peer whose nodes this side doesn't have all.
    nodes: Vec<OwnedGap<K>>,
    /// Keys of the peer that this side lacks, or has with another digest.
    wanted: Vec<Wanted<K>>,
    /// Gaps of which all rows are to be asked for.
    whole: Vec<OwnedGap<K>>,
    /// Rows of the peer that this side lacks, or has with another digest.
    rows: Vec<(K, V)>,
    /// How many rows of the peer came and were compared, and how many of these this side lacks, or has with another digest.
    came: Seen,
    /// The same of nodes that came as digests.
    digested: Seen,
    /// How many bytes the rows had that came, and the keys of nodes that are all there.
    bytes: u64,
}

impl<K, V> Model for Work<K, V> {
    ghost use Rattle.std.specs.Prelude.{map};
    ghost use Rattle.merkle_wire.specs.Underway.{Found};
    ghost use Rattle.merkle_wire.specs.Gaps.{owned_gap};

    ghost Value = { Found K V };

    ghost view = { λ w. record {
      below = map owned_gap w.below.items;
      nodes = map owned_gap w.nodes.items;
      wanted = map (λ x. x.key) w.wanted.items;
      whole = map owned_gap w.whole.items;
      rows = w.rows.items;
    } };
}

/// How many were compared.
#[derive(Clone, Copy, Drop)]
struct Seen {
    /// How many.
    all: u64,
    /// How many of them this side lacks, or has with another digest.
    lacked: u64,
}

impl Seen {
    /// None.
    fn none() -> Self {
        Seen { all: 0, lacked: 0 }
    }

    /// With one more.
    fn with(self, is_lacked: bool) -> Self {
        Seen {
            all: self.all.saturating_add(1),
            lacked: self.lacked.saturating_add(is_lacked as u64),
        }
    }
}

impl<K, V> Work<K, V> {
    ghost use Rattle.merkle_wire.specs.Underway.{nothing};

    /// Nothing.
    pub(crate) fn new(alloc: Global) -> Self
        ensures { result ≡ nothing }
    {
        Work {
            alloc,
            below: Vec::new(alloc),
            nodes: Vec::new(alloc),
            wanted: Vec::new(alloc),
            whole: Vec::new(alloc),
            rows: Vec::new(alloc),
            came: Seen::none(),
            digested: Seen::none(),
            bytes: 0,
        }
    }
}

impl<K: Drop, V: Drop> Work<K, V> {
    /// Adds the gap of a page that this side doesn't have.
    pub(crate) fn add_below(&mut self, gap: OwnedGap<K>) -> Result<(), AllocError>
        ensures { OnOk result (self.new ≡ record self.old { below = self.old.below ++ owned_gap gap ∷ [] }) }
    {
        self.below.push(gap)?;
        Ok(())
    }

    /// Adds the gap of a page whose nodes this side doesn't have all.
    pub(crate) fn add_nodes(&mut self, gap: OwnedGap<K>) -> Result<(), AllocError>
        ensures { OnOk result (self.new ≡ record self.old { nodes = self.old.nodes ++ owned_gap gap ∷ [] }) }
    {
        self.nodes.push(gap)?;
        Ok(())
    }

    /// Adds a gap of which all rows are to be asked for.
    pub(crate) fn add_whole(&mut self, gap: OwnedGap<K>) -> Result<(), AllocError>
        ensures { OnOk result (self.new ≡ record self.old { whole = self.old.whole ++ owned_gap gap ∷ [] }) }
    {
        self.whole.push(gap)?;
        Ok(())
    }

    /// Notes that rows came in this many bytes.
    pub(crate) fn note_bytes(&mut self, bytes: usize)
        ensures { self.new ≡ self.old }
    {
        self.bytes = self.bytes.saturating_add(bytes as u64);
    }

    /// Notes that the keys of this many nodes came in this many bytes, which are all there.
    pub(crate) fn note_same(&mut self, count: usize, bytes: usize)
        ensures { self.new ≡ self.old }
    {
        self.came = Seen {
            all: self.came.all.saturating_add(count as u64),
            lacked: self.came.lacked,
        };
        self.note_bytes(bytes);
    }

    /// Takes a row that came, unless this side has it.
    pub(crate) fn take_row(&mut self, row: (K, V), is_there: bool) -> Result<(), AllocError>
        ensures { OnOk result (self.new ≡ record self.old { rows = self.old.rows ++ cond (not is_there) (row ∷ []) [] }) }
    {
        self.came = self.came.with(!is_there);
        if !is_there {
            self.rows.push(row)?;
        }
        Ok(())
    }

    /// Takes a key that came with a digest, unless this side has it with that.
    pub(crate) fn take_key(&mut self, wanted: Wanted<K>, is_there: bool) -> Result<(), AllocError>
        ensures { OnOk result (self.new ≡ record self.old { wanted = self.old.wanted ++ cond (not is_there) (wanted.key ∷ []) [] }) }
    {
        self.digested = self.digested.with(!is_there);
        if !is_there {
            self.wanted.push(wanted)?;
        }
        Ok(())
    }

    /// What is to be asked next, where anything is: first the nodes of pages, then the pages below, then the rows. Where so many of the rows that
    /// came are missing that all rows are fewer bytes than outlines, the rows of the pages below are asked for at once.
    ///
    /// # Errors
    ///
    /// Out of memory.
    pub(crate) fn next_question(
        &mut self,
        digest_bytes: usize,
    ) -> Result<Option<Question<K>>, AllocError>
        ensures { IfOk result (λ next. IsAskedOf next self.old self.new) }
    {
        let most = self.most(digest_bytes);
        if !self.nodes.is_empty() {
            let gaps = std::mem::replace(&mut self.nodes, Vec::new(self.alloc));
            return Ok(Some(Question::Nodes(most, gaps)));
        }
        if self.is_dense() {
            self.whole.append(&mut self.below)?;
        }
        if !self.below.is_empty() {
            let gaps = std::mem::replace(&mut self.below, Vec::new(self.alloc));
            return Ok(Some(Question::Outlines(most, gaps)));
        }
        if !self.wanted.is_empty() {
            let keys = std::mem::replace(&mut self.wanted, Vec::new(self.alloc));
            return Ok(Some(Question::RowsAt(keys)));
        }
        if !self.whole.is_empty() {
            let gaps = std::mem::replace(&mut self.whole, Vec::new(self.alloc));
            return Ok(Some(Question::RowsIn(gaps)));
        }
        Ok(None)
    }

    /// Whether so many of the rows that came are missing that to ask for all rows costs less than to find those that are: to find one takes some
    /// 256 bytes of keys, digests and rows beside it. One that is missing doesn't tell.
    fn is_dense(&self) -> bool {
        let found = self.came.lacked.saturating_sub(1);
        found.saturating_mul(256) > self.bytes
    }

    /// How many bytes values may have, on average, for rows to be asked for and not their digests: as many as a digest has, and
    /// more where most rows are missing.
    fn most(&self, digest_bytes: usize) -> u64 {
        let all = self.came.all.saturating_add(self.digested.all);
        let lacked = self.came.lacked.saturating_add(self.digested.lacked);
        let same = all.saturating_sub(lacked).saturating_add(1);
        (digest_bytes as u64).saturating_mul(all.saturating_add(1)) / same
    }
}

impl<K: Ord + Drop, V: Drop> Work<K, V> {
    /// How many rows were found.
    pub(crate) fn row_count(&self) -> usize
        ensures { result ≡ length self.now.rows }
    {
        self.rows.len()
    }

    /// The rows that came.
    pub(crate) fn into_rows(self) -> Vec<(K, V)>
        ensures { result.items ≡ self.rows }
    {
        self.rows
    }
}
