//! Catalogues and their copies, heaps, indexes with their leaves and buckets, orders of worked data, and lines that
//! count rows.
#![tactic(auto)]

#[cfg(test)]
mod catalogues;
#[cfg(test)]
mod copies;
#[cfg(test)]
mod entries;
#[cfg(test)]
mod hashed;
#[cfg(test)]
mod heaps;
#[cfg(test)]
mod lists;
#[cfg(test)]
mod pages;
#[cfg(test)]
mod rows;
#[cfg(test)]
mod sorts;
