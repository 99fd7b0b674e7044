//! Worked texts: their words, their syntax trees' ends and faults, and what conditions mean.
#![tactic(auto)]

#[cfg(test)]
mod conditions;
#[cfg(test)]
mod literals;
#[cfg(test)]
mod statements;
#[cfg(test)]
mod words;
