//! `collate`: names in collation order, by the records of a file (README.md, "The program").
#![tactic(auto)]

use collate_run::program::run_program;
use std::process::ExitCode;

fn main(rt: HostRuntime) -> ExitCode {
    run_program(&rt)
}
