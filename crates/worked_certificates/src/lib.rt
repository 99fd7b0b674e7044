//! Certificate texts that are read back, and the lines at which others are refused.
#![tactic(auto)]

#[cfg(test)]
mod script;
#[cfg(test)]
mod texts;
