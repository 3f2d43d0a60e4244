//! The tests of what stands below the servers and is no value: threads, scripted readers, adapters, and fronts that own a partition in
//! turn. Values are rows of data, in `value_rows`.
#![tactic(auto)]

#[cfg(test)]
mod adapters;
#[cfg(test)]
mod cache_put;
#[cfg(test)]
mod change_rows;
#[cfg(test)]
mod changes;
#[cfg(test)]
mod heap;
#[cfg(test)]
mod jobs;
#[cfg(test)]
mod lent;
#[cfg(test)]
mod looks;
#[cfg(test)]
mod machine;
#[cfg(test)]
mod one_spare;
#[cfg(test)]
mod partitions;
#[cfg(test)]
mod same_as_machine;
#[cfg(test)]
mod schedules;
#[cfg(test)]
mod scripts;
#[cfg(test)]
mod sweeps;
#[cfg(test)]
mod torn_get;
#[cfg(test)]
mod worn;
