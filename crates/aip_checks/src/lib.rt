//! Whole runs of the top call and replays over texts in memory, where calls of the shelf and of the sink fail in turn, and
//! random schedules of three hosts against a plain count.
#![tactic(auto)]

#[cfg(test)]
mod count;
#[cfg(test)]
mod random_tests;
#[cfg(test)]
mod record_tests;
#[cfg(test)]
mod replay_tests;
#[cfg(test)]
mod run_tests;
#[cfg(test)]
mod tests;
