//! Hosts, their keys and their guards against what two other implementations answered, and over each stop and halt.
#![tactic(auto)]

#[cfg(test)]
mod guard_tests;
#[cfg(test)]
mod guarded_tests;
#[cfg(test)]
mod host_tests;
#[cfg(test)]
mod key_tests;
#[cfg(test)]
mod leaf_tests;
