//! Times of the operations that peers of a Merkle search tree make: inserting keys, loading them in key order, the root hash, the page
//! ranges as a list and one at a time, the differences of two lists, the cut of good ranges out of a bad one, and pulls.
//!
//! Without arguments it prints what the trees of the sample keys answer, which is the same on every machine:
//! `n ROOT_LOCAL ROOT_PEER RANGES_LOCAL RANGES_PEER DIFF_PEER DIFF_THIRD`, for 100, 1,000 and 10,000 keys. `--time N..` prints a
//! table of times for each number of keys, `--time-cut N..` one for each number of ranges to cut out, and `--time-pull N..` one for each
//! number of rows to pull, and `--time-catch-up N..` one for each number of rows of which some differ; `--sessions N..` counts the messages
//! and the bytes of these catch-ups over a wire, which are the same on every machine. It ends with status 2 and a
//! usage line on standard error where the arguments are none of these, and with status 1 and one line there where memory is
//! refused, or the clock or the output fails.
#![tactic(auto)]

mod answers;
mod arguments;
mod catch_ups;
mod clock;
mod cut;
mod fault;
mod keys;
mod pulls;
mod replicas;
mod sample;
mod sessions;
mod table;
mod times;

use arguments::Task;
use fault::Fault;
use std::env;
use std::process::ExitCode;
use std::rt::{Clock, Env};

/// What the program is called with.
const USAGE: &str =
    "usage: mst_bench [--time N.. | --time-cut N.. | --time-pull N.. | --time-catch-up N.. | --sessions N..]";

/// The lines that the arguments ask for.
fn lines<R: AllocGlobal + Clock + Env>(rt: &R) -> Result<Vec<String>, Fault> {
    let alloc = rt.alloc();
    let words: Vec<String> = env::args(rt)
        .map_err(|_| Fault::Usage)?
        .skip(1)
        .collect(alloc)?;
    match arguments::task_of(alloc, &words)? {
        Task::Answers => answers::lines(alloc),
        Task::Table(table, counts) => table::lines(rt, alloc, table, &counts),
    }
}

/// Does what the arguments ask for, and prints it.
fn run<R: AllocGlobal + Clock + Env + Print>(rt: &R) -> Result<(), Fault> {
    for line in &lines(rt)? {
        println!(rt; "{line}").map_err(|_| Fault::Output)?;
    }
    Ok(())
}

fn main(rt: HostRuntime) -> ExitCode {
    match run(&rt) {
        Ok(()) => ExitCode::SUCCESS,
        Err(Fault::Usage) => {
            let _ = rt.eprintln(USAGE);
            ExitCode::from(2)
        }
        Err(fault) => {
            let _ = eprintln!(rt; "mst_bench: {fault}");
            ExitCode::FAILURE
        }
    }
}
