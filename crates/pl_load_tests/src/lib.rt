//! Tests of forms, of what is in the way of one, of marked files, of histories of folders, and of loads and sets, by the public calls of their crates.
#![tactic(auto)]

#[cfg(test)]
mod demo;
#[cfg(test)]
mod firm;
#[cfg(test)]
mod forms;
#[cfg(test)]
mod histories;
#[cfg(test)]
mod large;
#[cfg(test)]
mod loads;
#[cfg(test)]
mod marked;
#[cfg(test)]
mod running;
#[cfg(test)]
mod skips;
#[cfg(test)]
mod walked;
