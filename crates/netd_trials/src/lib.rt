//! Tests of whole runs over memory: in pieces, with reads and writes that fail, and over each kernel.
#![tactic(auto)]

#[cfg(test)]
mod alike;
#[cfg(test)]
mod over_memory;
#[cfg(test)]
mod quota;
#[cfg(test)]
mod streams;
