//! Makes each call that takes memory, and prints what it answered and what it left.
//!
//! A line is `NAME | WHAT IS LEFT | ANSWER`: left is what a sink holds after the call, what an iterator gave, or the names of
//! the index. A call that is refused memory is made again, over a new sink or from a new iterator. So a run that is refused
//! memory once prints one line more than a run with ample memory (`tools/refuse_memory.py`).
#![tactic(auto)]

mod asked_texts;
mod forms;
mod keys;
mod mapper;
mod names;
mod orders;
mod tables;
mod told;

use mapper::tell_mapper;
use names::tell_names;
use std::io;
use tables::tell_records;

fn main(rt: HostRuntime) -> io::Result<()> {
    tell_records(&rt);
    tell_mapper(&rt);
    tell_names(&rt);
    println!(rt; "end")
}
