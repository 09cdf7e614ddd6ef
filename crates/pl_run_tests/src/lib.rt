//! Tests of whole runs by the top call, as scripts, and of runs that are stopped at each moment or of which each call fails.
#![tactic(auto)]

#[cfg(test)]
mod failing;
#[cfg(test)]
mod recipes;
#[cfg(test)]
mod running;
#[cfg(test)]
mod scripts;
#[cfg(test)]
mod session;
#[cfg(test)]
mod stopping;
#[cfg(test)]
mod weaving;
#[cfg(test)]
mod words;
