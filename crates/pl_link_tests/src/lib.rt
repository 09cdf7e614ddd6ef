//! Tests of recipes, acceptance, look-up, orders of initialisation, values, images and fixed programs by the public calls of their crates.
#![tactic(auto)]

#[cfg(test)]
mod build;
#[cfg(test)]
mod fixing;
#[cfg(test)]
mod image;
#[cfg(test)]
mod init;
#[cfg(test)]
mod object;
#[cfg(test)]
mod samples;
#[cfg(test)]
mod scope;
#[cfg(test)]
mod value;
#[cfg(test)]
mod wide;
