//! Tables: a line of names, and for each number of things the lines of what is measured of as many.

use crate::fault::Fault;
use crate::{catch_ups, cut, pulls, times};
use std::alloc::Global;
use std::rt::Clock;

/// What a table is of.
#[derive(Clone, Copy)]
pub enum Table {
    /// The times of the operations on trees.
    Times,
    /// The times of the cut of good ranges out of a bad one.
    Cuts,
    /// The times of pulls.
    Pulls,
    /// The times of catch-ups.
    CatchUps,
    /// The messages and bytes of these catch-ups over a wire.
    Sessions,
}

/// The names of the columns.
fn names(table: Table) -> &'static str {
    match table {
        Table::Times => times::NAMES,
        Table::Cuts => cut::NAMES,
        Table::Pulls => pulls::NAMES,
        Table::CatchUps => catch_ups::NAMES,
        Table::Sessions => catch_ups::SESSION_NAMES,
    }
}

/// Adds the lines of `count` things.
fn add_lines<R: Clock>(
    rt: &R,
    alloc: Global,
    table: Table,
    count: usize,
    lines: &mut Vec<String>,
) -> Result<(), Fault> {
    match table {
        Table::Times => lines.push(times::line(rt, alloc, count)?)?,
        Table::Cuts => lines.push(cut::line(rt, alloc, count)?)?,
        Table::Pulls => lines.push(pulls::line(rt, alloc, count)?)?,
        Table::CatchUps => catch_ups::add_lines(rt, alloc, count, true, lines)?,
        Table::Sessions => catch_ups::add_lines(rt, alloc, count, false, lines)?,
    }
    Ok(())
}

/// The lines of a table.
pub fn lines<R: Clock>(
    rt: &R,
    alloc: Global,
    table: Table,
    counts: &[usize],
) -> Result<Vec<String>, Fault> {
    let mut lines = Vec::new(alloc);
    lines.push(String::from_str(alloc, names(table))?)?;
    for count in counts {
        add_lines(rt, alloc, table, *count, &mut lines)?;
    }
    Ok(lines)
}
