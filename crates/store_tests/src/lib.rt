//! Tests of whole drives, of stores and their clients, and of the folder that they run over.
#![tactic(auto)]

#[cfg(test)]
mod backups;
#[cfg(test)]
mod ceilings;
#[cfg(test)]
mod clients;
#[cfg(test)]
mod commit_waits;
#[cfg(test)]
mod counted;
#[cfg(test)]
mod deadlines;
#[cfg(test)]
mod disks;
#[cfg(test)]
mod doors;
#[cfg(test)]
mod drives;
#[cfg(test)]
mod faulty;
#[cfg(test)]
mod few_versions;
#[cfg(test)]
mod folder_scenes;
#[cfg(test)]
mod forgetting;
#[cfg(test)]
mod gates;
#[cfg(test)]
mod healed;
#[cfg(test)]
mod hot_keys;
#[cfg(test)]
mod kept;
#[cfg(test)]
mod key_pages;
#[cfg(test)]
mod key_versions;
#[cfg(test)]
mod lost_logs;
#[cfg(test)]
mod machine_clocks;
#[cfg(test)]
mod made_folders;
#[cfg(test)]
mod outcomes;
#[cfg(test)]
mod past_views;
#[cfg(test)]
mod reasons;
#[cfg(test)]
mod renewing;
#[cfg(test)]
mod retiring;
#[cfg(test)]
mod served;
#[cfg(test)]
mod services;
#[cfg(test)]
mod slow;
#[cfg(test)]
mod small_files;
#[cfg(test)]
mod standing;
#[cfg(test)]
mod stopped_views;
#[cfg(test)]
mod stops;
#[cfg(test)]
mod store_folders;
#[cfg(test)]
mod typed_values;
#[cfg(test)]
mod under_load;
#[cfg(test)]
mod verdict;
#[cfg(test)]
mod views;
#[cfg(test)]
mod waiting;
#[cfg(test)]
mod wrong_clocks;
