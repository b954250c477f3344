//! Tests of the program `collate` below its `main`, of the lists below its index, and of lines sorted and merged, by public
//! calls. They stand here so that the crates below are proved once.
#![tactic(auto)]

#[cfg(test)]
mod assertions_fail;
#[cfg(test)]
mod buffered;
#[cfg(test)]
mod commands;
#[cfg(test)]
mod failing;
#[cfg(test)]
mod hashes;
#[cfg(test)]
mod letters;
#[cfg(test)]
mod limits;
#[cfg(test)]
mod merging;
#[cfg(test)]
mod names;
#[cfg(test)]
mod option_words;
#[cfg(test)]
mod over;
#[cfg(test)]
mod reading;
#[cfg(test)]
mod reloads;
#[cfg(test)]
mod runs;
#[cfg(test)]
mod slot_list;
#[cfg(test)]
mod sorting;
#[cfg(test)]
mod worked;
