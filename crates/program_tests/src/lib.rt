//! Tests of whole runs, also of drawn ones, and of what the program prints.
#![tactic(auto)]

#[cfg(test)]
mod asked;
#[cfg(test)]
mod comparing;
#[cfg(test)]
mod drawing;
#[cfg(test)]
mod drawn;
#[cfg(test)]
mod each_call;
#[cfg(test)]
mod explained;
#[cfg(test)]
mod files;
#[cfg(test)]
mod given;
#[cfg(test)]
mod judging;
#[cfg(test)]
mod long;
#[cfg(test)]
mod outside;
#[cfg(test)]
mod places;
#[cfg(test)]
mod played;
#[cfg(test)]
mod pruned;
#[cfg(test)]
mod replying;
#[cfg(test)]
mod schedule_texts;
#[cfg(test)]
mod sight;
#[cfg(test)]
mod steps;
#[cfg(test)]
mod stops;
#[cfg(test)]
mod telling;
#[cfg(test)]
mod tests;
#[cfg(test)]
mod told_as;
#[cfg(test)]
mod totals;
#[cfg(test)]
mod turned;
#[cfg(test)]
mod verdict;
#[cfg(test)]
mod words;
