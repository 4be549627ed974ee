//! Lines of inputs and of events that are read, written and refused.
#![tactic(auto)]

#[cfg(test)]
mod tests;
