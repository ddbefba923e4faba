//! What a command reads from standard input.
ghost use Rattle.std.specs.Prelude.{◌≡◌, IfOk};
ghost use Rattle.store_file.specs.Values.{IsValueOf};
ghost use Rattle.mst_commands.specs.Carries.{IsInputOf, imported_entries, value_of as value_from};

use crate::fault::Fault;
use crate::records::read_entries;
use crate::writing::read_bytes;
use mst_words::{StoreCommand, TableCommand};
use std::alloc::{AllocError, Global};
use store_file::Value;
use store_file::table::Entries;

/// What a command has from standard input, which is read to its end before a file is opened.
#[derive(Drop)]
pub enum Input {
    /// Nothing: the command line says all.
    Nothing,
    /// The bytes of the value of a put.
    Bytes(Vec<u8>),
    /// The entries of an import.
    Records(Entries),
}

/// Reads what a command takes from standard input, to its end: the value of a put, where it is to come from there, or the entries of an import.
///
/// # Errors
///
/// As those of [`read_bytes`] and [`read_entries`].
pub fn read_input(rt: &HostRuntime, command: StoreCommand<'_>) -> Result<Input, Fault>
    ensures { IfOk result (IsInputOf command.entry) }
{
    match command {
        StoreCommand::Table(TableCommand::Put { is_input: true, .. }) => {
            Ok(Input::Bytes(read_bytes(rt.alloc(), rt.stdin())?))
        }
        StoreCommand::Table(TableCommand::Import { is_log, .. }) => {
            let entries = read_entries(rt.alloc(), rt.stdin(), is_log)?;
            Ok(Input::Records(entries))
        }
        _ => Ok(Input::Nothing),
    }
}

/// The value of a put: that of the input, or else the text that is given.
pub(crate) fn value_of(alloc: Global, text: &str, input: Input) -> Result<Value, AllocError>
    ensures { IfOk result (λ value. IsValueOf (value_from input text.now) value) }
{
    match input {
        Input::Bytes(bytes) => Ok(Value::of(bytes)),
        _ => Ok(Value::Text(String::from_str(alloc, text)?)),
    }
}

/// The entries of an import: those of the input.
pub(crate) fn entries_in(alloc: Global, input: Input) -> Entries
    ensures { result.items ≡ imported_entries input }
{
    match input {
        Input::Records(entries) => entries,
        _ => Vec::new(alloc),
    }
}
