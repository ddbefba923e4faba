//! Writes that land together.
ghost use Rattle.std.specs.Prelude.{◌≡◌, [], None, false, true, OnErr, OnOk};
ghost use Rattle.store_file.specs.Logs.{Leaves, MakesAndFinds, StaysInErr, OnlyReads};
ghost use Rattle.store_rows.specs.InStep.{StandsInStep, StaysInStep};
ghost use Rattle.mst_commands.specs.Changing.{Lands, PutWaitsToo, WaitsToo};
ghost use Rattle.mst_commands.specs.Imports.{Imports};

use crate::fault::Fault;
use crate::writing::{import, within};
use sqlite_trees::store::Store;
use std::alloc::Global;
use std::collections::BTreeMap;
use std::marker::Model;
use store_file::format::HASH_KEY_LEN;
use store_file::latest::{find, value_of};
use store_file::log::Log;
use store_file::table::Entries;
use store_file::{Register, Value};

/// Writes that wait, the first one first.
#[derive(Drop)]
pub struct Change {
    entries: Entries,
    /// Whether the last write of each key puts a value.
    puts: BTreeMap<String, bool>,
    /// Whether a line of it failed, so that nothing of it lands.
    has_failed: bool,
}

impl Model for Change {
    ghost use Rattle.mst_commands.specs.Changing.{Waiting};

    ghost Value = { Waiting };

    ghost view = { λ change. record { entries = change.entries.items; has_failed = change.has_failed } };
}

impl Change {
    /// No writes.
    pub fn new(alloc: Global) -> Change
        ensures { result ≡ record { entries = []; has_failed = false } }
    {
        Change {
            entries: Vec::new(alloc),
            puts: BTreeMap::new(alloc),
            has_failed: false,
        }
    }

    /// Notes that a line failed.
    pub fn fail(&mut self)
        ensures { self.new ≡ record self.old { has_failed = true } }
    {
        self.has_failed = true;
    }

    /// Adds a write.
    fn push(&mut self, alloc: Global, key: &str, value: Option<Value>) -> Result<(), Fault>
        ensures waits { OnOk result (WaitsToo key.now value self.old self.new) }
        ensures kept { OnErr result (self.new ≡ self.old) }
    {
        self.puts
            .insert(String::from_str(alloc, key)?, value.is_some())?;
        let key = String::from_str(alloc, key)?;
        // (of the entries of a key an import takes the latest)
        let register = Register {
            time: self.entries.len() as u64,
            writer: String::new(alloc),
            value,
        };
        self.entries.push((key, register))?;
        Ok(())
    }

    /// Adds the write of a text.
    ///
    /// # Errors
    ///
    /// [`Fault::TooLong`], and [`Fault::Store`] when out of memory.
    pub fn put(&mut self, alloc: Global, key: &str, text: &str) -> Result<(), Fault>
        ensures waits { OnOk result (PutWaitsToo key.now text.now self.old self.new) }
        ensures kept { OnErr result (self.new ≡ self.old) }
    {
        within(key.as_bytes(), "the key")?;
        within(text.as_bytes(), "the value")?;
        let text = String::from_str(alloc, text)?;
        self.push(alloc, key, Some(Value::Text(text)))
    }

    /// Adds the removal of a key, which has to be there once what waits has landed.
    ///
    /// # Errors
    ///
    /// [`Fault::NoKey`] where it isn't there, and [`Fault::Store`].
    pub fn del<S: Store>(&mut self, alloc: Global, log: &mut Log<S>, key: &str) -> Result<(), Fault>
        ensures waits { OnOk result (WaitsToo key.now None self.old self.new) }
        ensures kept { OnErr result (self.new ≡ self.old) }
        ensures reads { OnlyReads S.Store log.old log.new result }
    {
        let is_there = match self.puts.get(key) {
            Some(is_there) => *is_there,
            None => value_of(find(alloc, log, key)?).is_some(),
        };
        if !is_there {
            return Err(Fault::NoKey);
        }
        self.push(alloc, key, None)
    }

    /// Writes what waits, in the log and in its tree, all or nothing, each write over what the file has, and returns whether it did: not if a line failed.
    ///
    /// # Errors
    ///
    /// [`Fault::Store`]. The file is then as it was.
    pub fn land<S: Store>(
        self,
        alloc: Global,
        log: &mut Log<S>,
        hash_key: &[u8; HASH_KEY_LEN],
        writer: &str,
        now: u64,
    ) -> Result<bool, Fault>
        ensures landed { MakesAndFinds S.Store log.old log.new result (Lands self writer.now now) }
        ensures refused { StaysInErr S.Store log.old log.new result }
        // A crash leaves what it could leave before, or trees with all that waited.
        ensures crash { Leaves S.Store log.old log.new (Imports self.entries None writer.now now) }
        ensures stands { StandsInStep S.Store hash_key.now log.old → StandsInStep S.Store hash_key.now log.new }
        // They are in step if they were.
        ensures left_in_step { Leaves S.Store log.old log.new (StaysInStep hash_key.now) }
    {
        if self.has_failed {
            return Ok(false);
        }
        import(alloc, log, hash_key, writer, now, self.entries, None)?;
        Ok(true)
    }
}
