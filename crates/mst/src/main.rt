//! A key-value store in one SQLite file, kept in step with its copies over any pair of pipes.
//!
//! It ends with status 0, or with another one and a line on standard error that says why (`status`).
#![tactic(auto)]

mod fault;
mod peers;
mod sessions;
mod shared;
mod shell;
mod status;
mod tasks;

use fault::Failure;
use mst_commands::escape::escape;
use mst_files::making::{make_backup, make_store};
use mst_files::rebuilding::rebuild;
use mst_words::help::HELP;
use mst_words::verb::{VERSION, form_of};
use mst_words::{Asked, Command, Task, Wrong, read_words};
use status::{USAGE, status_of};
use std::alloc::AllocError;
use std::env;
use std::io::ErrorKind;
use std::process::ExitCode;

/// Says that the command line is none.
fn refused(rt: &HostRuntime, wrong: &Wrong<'_>) -> ExitCode {
    let _ = eprintln!(rt; "mst: {wrong}: see mst --help");
    ExitCode::from(USAGE)
}

/// Says why the program ends early.
fn failed(rt: &HostRuntime, failure: &Failure) -> ExitCode {
    let _ = eprintln!(rt; "mst: {failure}");
    ExitCode::from(status_of(failure))
}

/// Says why a command on a file ends early. The name of the file stands in one line, as a key does in a list.
fn failed_on(rt: &HostRuntime, file: &str, failure: &Failure) -> ExitCode {
    let Ok(name) = escape(rt.alloc(), file) else {
        return failed(rt, failure);
    };
    let _ = eprintln!(rt; "mst: {name}: {failure}");
    ExitCode::from(status_of(failure))
}

/// Prints a text.
fn show(rt: &HostRuntime, text: &str) -> ExitCode {
    match print!(rt; "{text}") {
        Ok(()) => ExitCode::SUCCESS,
        Err(error) => failed(rt, &Failure::from(error)),
    }
}

/// Makes a backup of a file. What fails names the file that it is about.
fn back_up(rt: &HostRuntime, path: &str, seconds: u64, target: &str) -> ExitCode {
    let (note, entries) = match tasks::read_whole(rt, path, seconds) {
        Ok(whole) => whole,
        Err(failure) => return failed_on(rt, path, &failure),
    };
    match make_backup(rt, target, &note.hash_key, &entries) {
        Ok(()) => ExitCode::SUCCESS,
        Err(fault) => failed_on(rt, target, &Failure::from(fault)),
    }
}

/// How many seconds a command waits for a file that another process has, unless it says otherwise.
const PATIENCE: u64 = 5;

/// Runs a command on its file.
fn run_task(rt: &HostRuntime, task: &Task<'_>) -> ExitCode {
    let (path, seconds) = (task.file, task.wait.unwrap_or(PATIENCE));
    let done = match task.command {
        Command::Init { writer, hash_key } => {
            make_store(rt, path, writer, hash_key).map_err(Failure::File)
        }
        Command::Store(command) => tasks::run(rt, path, seconds, command),
        Command::Shell { answers } => shell::run(rt, path, seconds, answers),
        Command::Serve { limits, both } => sessions::serve(rt, path, seconds, &limits, both),
        Command::Pull { limits, both } => sessions::pull(rt, path, seconds, &limits, both),
        Command::Diff { limits, json } => sessions::look(rt, path, seconds, &limits, json),
        Command::Backup { target } => return back_up(rt, path, seconds, target),
        Command::Rebuild => rebuild(rt, path, seconds).map_err(Failure::File),
    };
    match done {
        Ok(()) => ExitCode::SUCCESS,
        Err(failure) => failed_on(rt, path, &failure),
    }
}

/// Runs the words of the command line, without the name of the program.
fn run(rt: &HostRuntime, words: &[String]) -> ExitCode {
    match read_words(words) {
        Ok(Asked::Help) => show(rt, HELP),
        Ok(Asked::HelpOf(verb)) => show(rt, form_of(verb).help),
        Ok(Asked::Version) => show(rt, VERSION),
        Ok(Asked::Run(task)) => run_task(rt, &task),
        Err(wrong) => refused(rt, &wrong),
    }
}

fn main(rt: HostRuntime) -> ExitCode {
    match env::args(&rt) {
        Ok(words) => match words.skip(1).collect::<Vec<String>>(rt.alloc()) {
            Ok(words) => run(&rt, &words),
            Err(error) => failed(&rt, &Failure::from(error)),
        },
        Err(error) if error.kind() == ErrorKind::InvalidData => refused(&rt, &Wrong::NotText),
        // The words fail for that alone, or memory ran out.
        Err(_) => failed(&rt, &Failure::from(AllocError)),
    }
}
