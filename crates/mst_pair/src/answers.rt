//! What the two replicas answer to a line.
ghost use Rattle.mst_pair.specs.Devices.{MarksFailure};
ghost use Rattle.mst_pair.specs.Engine.{AnswersLine, CarriesOut};
ghost use Rattle.mst_pair.specs.Parsing.{request_of};
ghost use Rattle.mst_pair.specs.Requests.{put, del, pages, diff, pull, same, turns, set_format};

use crate::engine::{Engine, ReplicaName};
use crate::page_reply::write_pages;
use crate::parse::{Command, parse};
use crate::reply::{write_list, write_no_memory, write_pull, write_root};
use crate::sink::{Sink, write_all};
use crate::source::Failed;
use merkle_search_tree::builder::PageFormat;

impl Engine {
    /// Carries out a line, and writes the reply. What the reply needs is made before its first byte is written.
    pub fn answer<W: Sink>(&mut self, line: &[u8], writer: &mut W) -> Result<(), Failed>
        ensures bytes { AnswersLine self.old line.now self.new result (W.taken writer.old) (W.taken writer.new) }
        ensures failed { MarksFailure result (W.has_failed writer.old) (W.has_failed writer.new) }
    {
        match parse(line) {
            Some(command) => self.carry_out(command, writer),
            None => write_all(writer, b"bad line\n"),
        }
    }

    fn carry_out<W: Sink>(&mut self, command: Command<'_>, writer: &mut W) -> Result<(), Failed>
        ensures bytes { CarriesOut self.old (request_of command.entry) self.new result (W.taken writer.old) (W.taken writer.new) }
        ensures failed { MarksFailure result (W.has_failed writer.old) (W.has_failed writer.new) }
    {
        match command {
            Command::Put(name, key, number) => self.answer_put(name, key, number, writer),
            Command::Del(name, key) => self.answer_del(name, key, writer),
            Command::Keys(name) => write_list(self.rows(name), writer),
            Command::Root(name) => write_root(&self.root_hash(name), writer),
            Command::Pages(name) => self.answer_pages(name, writer),
            Command::Diff(name) => self.answer_diff(name, writer),
            Command::Pull(name) => self.answer_pull(name, writer),
            Command::Same => self.answer_same(writer),
            Command::Turns(count) => self.answer_turns(count, writer),
            Command::Format(format) => self.answer_format(format, writer),
        }
    }

    fn answer_put<W: Sink>(
        &mut self,
        name: ReplicaName,
        key: &str,
        number: u64,
        writer: &mut W,
    ) -> Result<(), Failed>
        ensures bytes { CarriesOut self.old (put name key.now number) self.new result (W.taken writer.old) (W.taken writer.new) }
        ensures failed { MarksFailure result (W.has_failed writer.old) (W.has_failed writer.new) }
    {
        match self.join_row(name, key, number) {
            Ok(()) => write_all(writer, b"ok\n"),
            Err(_) => write_no_memory(writer),
        }
    }

    fn answer_del<W: Sink>(
        &mut self,
        name: ReplicaName,
        key: &str,
        writer: &mut W,
    ) -> Result<(), Failed>
        ensures bytes { CarriesOut self.old (del name key.now) self.new result (W.taken writer.old) (W.taken writer.new) }
        ensures failed { MarksFailure result (W.has_failed writer.old) (W.has_failed writer.new) }
    {
        match self.delete_row(name, key) {
            Ok(true) => write_all(writer, b"ok\n"),
            Ok(false) => write_all(writer, b"absent\n"),
            Err(_) => write_no_memory(writer),
        }
    }

    fn answer_pages<W: Sink>(&mut self, name: ReplicaName, writer: &mut W) -> Result<(), Failed>
        ensures bytes { CarriesOut self.old (pages name) self.new result (W.taken writer.old) (W.taken writer.new) }
        ensures failed { MarksFailure result (W.has_failed writer.old) (W.has_failed writer.new) }
    {
        match name {
            ReplicaName::A => write_pages(&mut self.a, writer),
            ReplicaName::B => write_pages(&mut self.b, writer),
        }
    }

    fn answer_diff<W: Sink>(&mut self, name: ReplicaName, writer: &mut W) -> Result<(), Failed>
        ensures bytes { CarriesOut self.old (diff name) self.new result (W.taken writer.old) (W.taken writer.new) }
        ensures failed { MarksFailure result (W.has_failed writer.old) (W.has_failed writer.new) }
    {
        match self.ranges_to_ask(name) {
            Ok(ranges) => write_list(&ranges, writer),
            Err(_) => write_no_memory(writer),
        }
    }

    fn answer_pull<W: Sink>(&mut self, name: ReplicaName, writer: &mut W) -> Result<(), Failed>
        ensures bytes { CarriesOut self.old (pull name) self.new result (W.taken writer.old) (W.taken writer.new) }
        ensures failed { MarksFailure result (W.has_failed writer.old) (W.has_failed writer.new) }
    {
        match self.pull(name) {
            Ok(pulled) => write_pull(&pulled, writer),
            Err(_) => write_no_memory(writer),
        }
    }

    fn answer_same<W: Sink>(&mut self, writer: &mut W) -> Result<(), Failed>
        ensures bytes { CarriesOut self.old same self.new result (W.taken writer.old) (W.taken writer.new) }
        ensures failed { MarksFailure result (W.has_failed writer.old) (W.has_failed writer.new) }
    {
        if self.is_same() {
            write_all(writer, b"same\n")
        } else {
            write_all(writer, b"differ\n")
        }
    }

    fn answer_turns<W: Sink>(&mut self, count: u8, writer: &mut W) -> Result<(), Failed>
        ensures bytes { CarriesOut self.old (turns count) self.new result (W.taken writer.old) (W.taken writer.new) }
        ensures failed { MarksFailure result (W.has_failed writer.old) (W.has_failed writer.new) }
    {
        match self.take_turns(count) {
            Ok(all) => write_list(&all, writer),
            Err(_) => write_no_memory(writer),
        }
    }

    fn answer_format<W: Sink>(&mut self, format: PageFormat, writer: &mut W) -> Result<(), Failed>
        ensures bytes { CarriesOut self.old (set_format format) self.new result (W.taken writer.old) (W.taken writer.new) }
        ensures failed { MarksFailure result (W.has_failed writer.old) (W.has_failed writer.new) }
    {
        if self.set_format(format) {
            write_all(writer, b"ok\n")
        } else {
            write_all(writer, b"not empty\n")
        }
    }
}
