//! Tests of the crates below pl_object, of scripts and generated sets, of the real folder and of the lines for people, one module for each crate.
#![tactic(auto)]

#[cfg(test)]
mod base;
#[cfg(test)]
mod cache;
#[cfg(test)]
mod dynamic;
#[cfg(test)]
mod elf;
#[cfg(test)]
mod explain;
#[cfg(test)]
mod folder;
#[cfg(test)]
mod hash;
#[cfg(test)]
mod io;
#[cfg(test)]
mod journal;
#[cfg(test)]
mod lists;
#[cfg(test)]
mod place;
#[cfg(test)]
mod real_folder;
#[cfg(test)]
mod relr;
#[cfg(test)]
mod scripts;
#[cfg(test)]
mod sets;
#[cfg(test)]
mod share;
#[cfg(test)]
mod slots;
#[cfg(test)]
mod stage;
#[cfg(test)]
mod symbols;
#[cfg(test)]
mod tls;
#[cfg(test)]
mod undo;
#[cfg(test)]
mod versions;
#[cfg(test)]
mod words;
