//! Tests of the low crates, of disks and logs, and of what a shard keeps of its log in memory. They test what the
//! clauses of these do not say, and compare drawn calls with plain models.
#![tactic(auto)]

#[cfg(test)]
mod agreed;
#[cfg(test)]
mod beside;
#[cfg(test)]
mod causes;
#[cfg(test)]
mod checks;
#[cfg(test)]
mod clocks;
#[cfg(test)]
mod crowd;
#[cfg(test)]
mod devices;
#[cfg(test)]
mod disks;
#[cfg(test)]
mod documents;
#[cfg(test)]
mod drawers;
#[cfg(test)]
mod drawn;
#[cfg(test)]
mod file_logs;
#[cfg(test)]
mod files;
#[cfg(test)]
mod grouped;
#[cfg(test)]
mod handed;
#[cfg(test)]
mod horizons;
#[cfg(test)]
mod ids;
#[cfg(test)]
mod known;
#[cfg(test)]
mod ledgers;
#[cfg(test)]
mod left;
#[cfg(test)]
mod limits;
#[cfg(test)]
mod looks;
#[cfg(test)]
mod messages;
#[cfg(test)]
mod migrated;
#[cfg(test)]
mod plain;
#[cfg(test)]
mod records;
#[cfg(test)]
mod refusals;
#[cfg(test)]
mod renewed;
#[cfg(test)]
mod seated;
#[cfg(test)]
mod sessions;
#[cfg(test)]
mod spellings;
#[cfg(test)]
mod steps;
#[cfg(test)]
mod tables;
#[cfg(test)]
mod tests;
#[cfg(test)]
mod text_logs;
#[cfg(test)]
mod tokens;
#[cfg(test)]
mod turned;
#[cfg(test)]
mod verdicts;
#[cfg(test)]
mod versioned;
