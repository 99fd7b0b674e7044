//! Scans, joins and whole plans run over small tables and over tables of a thousand rows.
#![tactic(auto)]

#[cfg(test)]
mod cases;
#[cfg(test)]
mod joins;
#[cfg(test)]
mod plans;
#[cfg(test)]
mod scans;
#[cfg(test)]
mod scene;
#[cfg(test)]
mod script;
#[cfg(test)]
mod seen;
