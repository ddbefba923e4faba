//! Values in a line, and as members of objects of JSON.
ghost use Rattle.std.specs.Prelude.{◌≡◌, ◌≢◌, ◌++◌, ℕ, List, codes, string_bytes, IfOk};
ghost use Rattle.mst_commands.specs.Escapes.{json_of, escaped_line};
ghost use Rattle.merkle_digest.specs.Digest.{base64_of};
ghost use Rattle.mst_commands.specs.Values.{value_line, value_member, said_member};

use crate::escape::{escape, json_string};
use base64::engine::general_purpose::STANDARD;
use std::alloc::{AllocError, Global};
use store_file::Value;

/// Bytes that are no text, in a line.
fn bytes_in_line(alloc: Global, bytes: &[u8]) -> Result<String, AllocError>
    ensures { IfOk result (λ line. string_bytes line ≡ codes "\\base64:" ++ base64_of bytes.now) }
{
    let mut line = String::from_str(alloc, "\\base64:")?;
    STANDARD.encode_string(bytes, &mut line)?;
    Ok(line)
}

/// A value in a line: a text as [`escape`] writes it, or the base64 of other bytes after `\base64:`, which begins the line of no text, since a
/// text's backslash has another letter after it.
pub fn in_line(alloc: Global, value: &Value) -> Result<String, AllocError>
    ensures { IfOk result (λ line. string_bytes line ≡ value_line value.now) }
{
    match value {
        Value::Text(text) => escape(alloc, text.as_str()),
        Value::Bytes(bytes) => bytes_in_line(alloc, bytes.as_slice()),
    }
}

/// A text as a member of an object of JSON.
fn text_as_member(alloc: Global, text: &str) -> Result<String, AllocError>
    ensures { IfOk result (λ member. string_bytes member ≡ codes "\"value\":" ++ json_of text.now) }
{
    let json = json_string(alloc, text)?;
    let mut member = String::from_str(alloc, "\"value\":")?;
    member.push_str(json.as_str())?;
    Ok(member)
}

/// Bytes that are no text as a member of an object of JSON.
fn bytes_as_member(alloc: Global, bytes: &[u8]) -> Result<String, AllocError>
    ensures { IfOk result (λ member. string_bytes member ≡ codes "\"value_base64\":\"" ++ (base64_of bytes.now ++ codes "\"")) }
{
    let mut member = String::from_str(alloc, "\"value_base64\":\"")?;
    STANDARD.encode_string(bytes, &mut member)?;
    member.push_str("\"")?;
    Ok(member)
}

/// A value as a member of an object of JSON: a text as `value`, other bytes in base64 as `value_base64`.
pub fn as_member(alloc: Global, value: &Value) -> Result<String, AllocError>
    ensures { IfOk result (λ member. string_bytes member ≡ value_member value.now) }
{
    match value {
        Value::Text(text) => text_as_member(alloc, text.as_str()),
        Value::Bytes(bytes) => bytes_as_member(alloc, bytes.as_slice()),
    }
}

/// What is said of a key, as such a member: a `value` of null where it was removed.
pub fn said_as_member(alloc: Global, said: &Option<Value>) -> Result<String, AllocError>
    ensures { IfOk result (λ member. string_bytes member ≡ said_member said.now) }
{
    match said {
        Some(value) => as_member(alloc, value),
        None => String::from_str(alloc, "\"value\":null"),
    }
}

/// A line tells whether its value is a text: no text has a line that begins as the line of other bytes does. It has no effect and takes no memory.
pub fn no_text_begins_as_bytes()
    ensures { (text bytes : List ℕ) → escaped_line text ≢ codes "\\base64:" ++ bytes }
{}
