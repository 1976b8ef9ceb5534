//! Replicas of the store in a chain, message by message: tests alone, which use the calls that a replica has for everyone.
#![tactic(auto)]

#[cfg(test)]
mod inputs;
#[cfg(test)]
mod line;
#[cfg(test)]
mod tests;
