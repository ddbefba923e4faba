//! Serves two replicas on standard input and standard output.
//!
//! Its arguments are ignored. It ends with status 0 at the end of its input, and with status 1 and one line on
//! standard error where it can no longer read or write.
#![tactic(auto)]

use mst_pair::run::run;
use mst_pair::sink::ToWrite;
use mst_pair::source::FromRead;
use std::process::ExitCode;

fn main(rt: HostRuntime) -> ExitCode {
    let mut reader = FromRead::new(rt.stdin());
    let mut writer = ToWrite::new(rt.stdout());
    match run(rt.alloc(), &mut reader, &mut writer) {
        Ok(()) => ExitCode::SUCCESS,
        Err(fault) => {
            let _ = eprintln!(rt; "{}", fault.text());
            ExitCode::FAILURE
        }
    }
}
