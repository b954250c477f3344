//! Tests of the reading and compiling of records files, by their public calls. They stand here so that the reader is proved once.
#![tactic(auto)]

#[cfg(test)]
mod changes;
#[cfg(test)]
mod compile;
#[cfg(test)]
mod first_lines;
#[cfg(test)]
mod join;
#[cfg(test)]
mod limits;
#[cfg(test)]
mod reader;
#[cfg(test)]
mod records;
#[cfg(test)]
mod rules;
#[cfg(test)]
mod written_words;
