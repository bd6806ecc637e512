//! Tests of lines, messages and scripts that data can't show.
//! Readers and writers in pieces, failing and without end, stores that fail at any call, little
//! memory, which sets are written, and calls that no program makes.
#![tactic(auto)]

#[cfg(test)]
mod each_fault;
#[cfg(test)]
mod ends;
#[cfg(test)]
mod failing_store;
#[cfg(test)]
mod left_as_before;
#[cfg(test)]
mod lines;
#[cfg(test)]
mod long_inputs;
#[cfg(test)]
mod memory;
#[cfg(test)]
mod messages;
#[cfg(test)]
mod readers_and_writers;
#[cfg(test)]
mod scripts;
#[cfg(test)]
mod texts;
#[cfg(test)]
mod waiting;
