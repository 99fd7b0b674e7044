//! Plans of worked queries, tried on data, and the parts of the search by small plans made by hand.
#![tactic(auto)]

#[cfg(test)]
mod judged;
#[cfg(test)]
mod kept;
#[cfg(test)]
mod made;
#[cfg(test)]
mod orders;
#[cfg(test)]
mod scans;
#[cfg(test)]
mod script;
#[cfg(test)]
mod tables;
#[cfg(test)]
mod tests;
#[cfg(test)]
mod texts;
#[cfg(test)]
mod trees;
#[cfg(test)]
mod values;
