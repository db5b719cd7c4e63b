//! Tests that cross crates: shards and nodes on disks in memory.
#![tactic(auto)]

#[cfg(test)]
mod answers;
#[cfg(test)]
mod asked_twice;
#[cfg(test)]
mod booked;
#[cfg(test)]
mod chores;
#[cfg(test)]
mod compacted;
#[cfg(test)]
mod compacted_rows;
#[cfg(test)]
mod coordinating;
#[cfg(test)]
mod cores;
#[cfg(test)]
mod counted;
#[cfg(test)]
mod damaged;
#[cfg(test)]
mod forgetting;
#[cfg(test)]
mod given;
#[cfg(test)]
mod grouped;
#[cfg(test)]
mod grouped_nodes;
#[cfg(test)]
mod in_want;
#[cfg(test)]
mod inboxes;
#[cfg(test)]
mod logs;
#[cfg(test)]
mod moved_nodes;
#[cfg(test)]
mod nodes;
#[cfg(test)]
mod one_commit;
#[cfg(test)]
mod pieces;
#[cfg(test)]
mod promising;
#[cfg(test)]
mod refused;
#[cfg(test)]
mod renewing;
#[cfg(test)]
mod reopening;
#[cfg(test)]
mod restarts;
#[cfg(test)]
mod retiring;
#[cfg(test)]
mod served;
#[cfg(test)]
mod steady;
#[cfg(test)]
mod stories;
#[cfg(test)]
mod strained;
#[cfg(test)]
mod tests;
#[cfg(test)]
mod together;
#[cfg(test)]
mod turned;
#[cfg(test)]
mod turned_nodes;
#[cfg(test)]
mod turned_rows;
#[cfg(test)]
mod turning;
#[cfg(test)]
mod under_lock;
#[cfg(test)]
mod unserved;
#[cfg(test)]
mod verdict;
#[cfg(test)]
mod viewed;
#[cfg(test)]
mod waiting;
#[cfg(test)]
mod without_memory;
#[cfg(test)]
mod wounded;
