//! `collate_unicode`: names in collation order, by the records of a file within `Limits::UNICODE` (README.md, "The program").
#![tactic(auto)]

use collate_run::over::run_program_over;
use collate_run::setup::Setup;
use std::process::ExitCode;

fn main(rt: HostRuntime) -> ExitCode {
    run_program_over(&rt, Setup::UNICODE.seeded(&rt))
}
