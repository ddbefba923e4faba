//! What the arguments ask for.

ghost use Rattle.std.specs.Str.Parse.{ParsesUnsigned};

use crate::fault::Fault;
use crate::table::Table;
use std::alloc::Global;

/// What the program is to do.
#[derive(Drop)]
pub enum Task {
    /// Print what the trees of the sample keys answer.
    Answers,
    /// Print this table for each of these numbers.
    Table(Table, Vec<usize>),
}

/// The number that the word spells in decimal digits, where it is one below 2 ^ 64.
fn count_of(word: &str) -> Result<usize, Fault>
    ensures { ParsesUnsigned 64 10 word.now result }
{
    match word.parse::<usize>() {
        Ok(count) => Ok(count),
        Err(_) => Err(Fault::Usage),
    }
}

/// The numbers that the words spell.
fn counts(alloc: Global, words: &[String]) -> Result<Vec<usize>, Fault> {
    let mut counts = Vec::new(alloc);
    for word in words {
        counts.push(count_of(word.as_str())?)?;
    }
    Ok(counts)
}

/// The table that an option names.
fn table_of(option: &str) -> Result<Table, Fault> {
    match option {
        "--time" => Ok(Table::Times),
        "--time-cut" => Ok(Table::Cuts),
        "--time-pull" => Ok(Table::Pulls),
        "--time-catch-up" => Ok(Table::CatchUps),
        "--sessions" => Ok(Table::Sessions),
        _ => Err(Fault::Usage),
    }
}

/// The task that the words after the program's name ask for.
pub fn task_of(alloc: Global, words: &[String]) -> Result<Task, Fault> {
    let Some((option, numbers)) = words.split_first() else {
        return Ok(Task::Answers);
    };
    if numbers.is_empty() {
        return Err(Fault::Usage);
    }
    Ok(Task::Table(table_of(option.as_str())?, counts(alloc, numbers)?))
}
