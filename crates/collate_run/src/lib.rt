//! A run of `collate`: the words of the program, the lines that it reads, the replies that it writes, and its status.
//! Begin with `program::run_program`, with `serve::serve`, all of it but reading its words and its file, or with `run::run`, the
//! commands alone.
#![tactic(auto)]

pub mod buffered;
mod fused;
pub mod laws;
pub mod over;
pub mod program;
mod replies;
pub mod run;
pub mod serve;
pub mod setup;
pub mod watched;

pub use collate_choice as choice;
