//! Worked statements: what their readers make of them, and where they refuse them.
#![tactic(auto)]

#[cfg(test)]
mod cases;
#[cfg(test)]
mod definitions;
#[cfg(test)]
mod indexes;
#[cfg(test)]
mod parts;
#[cfg(test)]
mod selects;
#[cfg(test)]
mod tables;
#[cfg(test)]
mod typed;
#[cfg(test)]
mod windows;
