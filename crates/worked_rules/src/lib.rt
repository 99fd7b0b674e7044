//! Worked rules: operator families, trees of conditions and their truths, what they imply, their classes, and costs.
#![tactic(auto)]

#[cfg(test)]
mod build;
#[cfg(test)]
mod classes;
#[cfg(test)]
mod costs;
#[cfg(test)]
mod families;
#[cfg(test)]
mod implications;
#[cfg(test)]
mod scales;
#[cfg(test)]
mod trees;
