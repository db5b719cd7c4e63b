//! Tests of lines that a store is asked, and of what is answered.
#![tactic(auto)]

#[cfg(test)]
mod ends;
#[cfg(test)]
mod lines;
#[cfg(test)]
mod moved;
#[cfg(test)]
mod renewed;
#[cfg(test)]
mod streams;
#[cfg(test)]
mod waiting;
#[cfg(test)]
mod words;
