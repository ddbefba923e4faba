//! What a line asks for.
ghost use Rattle.std.specs.Prelude.{◌≡◌, ◌≢◌, IfSome, IfNone, MatchOption, IsTrue, ◌↔◌, codes};
ghost use Rattle.mst_pair.specs.Requests.{IsSpelled, IsBad, name_text, IsKey};
ghost use Rattle.mst_pair.specs.Parsing.{request_of, ReadsRequest, ReadsDigit, ReadsField, ReadsFormat, ReadsRow};
ghost use Rattle.mst_pair.specs.declared.engine.ReplicaName.{ReplicaName as NameOf};

use crate::engine::ReplicaName;
use crate::number::number_of;
use merkle_search_tree::builder::PageFormat;

/// The most bytes that a key has.
const KEY_BYTES: usize = 255;

/// What a right line asks for.
#[derive(Clone, Copy)]
pub enum Command<'a> {
    /// Join a row, a key and its number, into a replica.
    Put(ReplicaName, &'a str, u64),
    /// Take the row of a key out of a replica.
    Del(ReplicaName, &'a str),
    /// Show the rows of a replica.
    Keys(ReplicaName),
    /// Show the root hash of a replica.
    Root(ReplicaName),
    /// Show the page ranges of a replica.
    Pages(ReplicaName),
    /// Show the ranges that a replica would ask the other for.
    Diff(ReplicaName),
    /// Have a replica pull from the other.
    Pull(ReplicaName),
    /// Tell whether the replicas have the same root hash.
    Same,
    /// Have the replicas pull from each other by turns, this many times.
    Turns(u8),
    /// Make both replicas anew in a page format, where neither has a row.
    Format(PageFormat),
}

/// What the line asks for, or nothing where it spells no request.
pub fn parse(line: &[u8]) -> Option<Command<'_>>
    ensures found { IfSome result (λ c. IsSpelled (request_of c) line.now) }
    ensures none { IfNone result (IsBad line.now) }
{
    match first_field(line) {
        Some((word, arguments)) => command_of(word, arguments),
        None if is_word(line, b"same") => Some(Command::Same),
        None => None,
    }
}

/// What a word with arguments asks for.
fn command_of<'a>(word: &[u8], arguments: &'a [u8]) -> Option<Command<'a>>
    ensures { ReadsRequest word.now arguments.now result }
{
    if is_word(word, b"put") {
        return put_of(arguments);
    }
    if is_word(word, b"del") {
        return del_of(arguments);
    }
    if is_word(word, b"turns") {
        return Some(Command::Turns(digit_of(arguments)?));
    }
    if is_word(word, b"format") {
        return Some(Command::Format(format_of(arguments)?));
    }
    let name = name_of(arguments)?;
    if is_word(word, b"keys") {
        Some(Command::Keys(name))
    } else if is_word(word, b"root") {
        Some(Command::Root(name))
    } else if is_word(word, b"pages") {
        Some(Command::Pages(name))
    } else if is_word(word, b"diff") {
        Some(Command::Diff(name))
    } else if is_word(word, b"pull") {
        Some(Command::Pull(name))
    } else {
        None
    }
}

/// The row that is to be joined, and its replica.
fn put_of(arguments: &[u8]) -> Option<Command<'_>>
    ensures { ReadsRequest (codes "put") arguments.now result }
{
    let (name, rest) = first_field(arguments)?;
    let name = name_of(name)?;
    let (key, number) = row_of(rest)?;
    Some(Command::Put(name, key, number))
}

/// The key whose row is to be taken out, and its replica.
fn del_of(arguments: &[u8]) -> Option<Command<'_>>
    ensures { ReadsRequest (codes "del") arguments.now result }
{
    let (name, rest) = first_field(arguments)?;
    let name = name_of(name)?;
    let key = key_of(rest)?;
    Some(Command::Del(name, key))
}

/// The number below 10 that one digit spells.
fn digit_of(text: &[u8]) -> Option<u8>
    ensures { ReadsDigit text.now result }
{
    if text.len() != 1 || !text[0].is_ascii_digit() {
        return None;
    }
    Some(text[0] - b'0')
}

fn is_word(text: &[u8], word: &[u8]) -> bool
    ensures { IsTrue result ↔ (text.now ≡ word.now) }
{
    text == word
}

/// What stands before the first space, and what stands after it.
fn first_field(text: &[u8]) -> Option<(&[u8], &[u8])>
    ensures { ReadsField text.now result }
{
    'finding: for (at, byte) in text.iter().enumerate() {
        if *byte == b' ' {
            return Some((&text[..at], &text[at + 1..]));
        }
    }
    None
}

fn name_of(text: &[u8]) -> Option<ReplicaName>
    ensures { MatchOption result ((name : NameOf) → text.now ≢ name_text name) (λ name. text.now ≡ name_text name) }
{
    if is_word(text, b"a") {
        Some(ReplicaName::A)
    } else if is_word(text, b"b") {
        Some(ReplicaName::B)
    } else {
        None
    }
}

fn format_of(text: &[u8]) -> Option<PageFormat>
    ensures { ReadsFormat text.now result }
{
    if is_word(text, b"1") {
        Some(PageFormat::V1)
    } else if is_word(text, b"2") {
        Some(PageFormat::V2)
    } else {
        None
    }
}

fn row_of(text: &[u8]) -> Option<(&str, u64)>
    ensures { ReadsRow text.now result }
{
    let (key, digits) = first_field(text)?;
    let key = key_of(key)?;
    let number = number_of(digits)?;
    Some((key, number))
}

fn key_of(bytes: &[u8]) -> Option<&str>
    ensures { MatchOption result (IsKey bytes.now → ⊥) (λ key. IsKey bytes.now × (key.now ≡ bytes.now)) }
{
    if bytes.is_empty() || bytes.len() > KEY_BYTES {
        return None;
    }
    if !bytes.iter().all(|byte| *byte > b' ' && *byte != b'\x7f') {
        return None;
    }
    str::from_utf8(bytes).ok()
}
