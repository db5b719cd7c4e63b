//! Tests of commands over files of the machine.
#![tactic(auto)]

#[cfg(test)]
mod coarse_clock;
#[cfg(test)]
mod command_lines;
#[cfg(test)]
mod compacting;
#[cfg(test)]
mod large_store;
#[cfg(test)]
mod large_values;
#[cfg(test)]
mod many_lines;
#[cfg(test)]
mod verdict;
