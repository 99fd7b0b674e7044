//! Worked values: texts that are read and printed, comparisons and orders, fronts of offers, sets that are advised, the
//! adapters over std with the calls that take memory, and the lines of groups and what plans that group cost.
#![tactic(auto)]

#[cfg(test)]
mod advice;
#[cfg(test)]
mod comparisons;
#[cfg(test)]
mod costs;
#[cfg(test)]
mod dates;
#[cfg(test)]
mod directions;
#[cfg(test)]
mod fields;
#[cfg(test)]
mod fronts;
#[cfg(test)]
mod lines;
#[cfg(test)]
mod numerics;
#[cfg(test)]
mod orders;
#[cfg(test)]
mod outside;
#[cfg(test)]
mod typed;
