//! Tests of what a drive shows at the terminal.
#![tactic(auto)]

#[cfg(test)]
mod drive_lines;
#[cfg(test)]
mod figures;
#[cfg(test)]
mod screens;
#[cfg(test)]
mod terminals;
#[cfg(test)]
mod tests;
