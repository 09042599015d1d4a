//! Tests of crates that the others stand on, for what no row of the program reaches. They stand here, since a crate with tests of its
//! own is proved twice.
#![tactic(auto)]

#[cfg(test)]
mod codes;
#[cfg(test)]
mod drawn;
#[cfg(test)]
mod lists;
#[cfg(test)]
mod ranges;
#[cfg(test)]
mod scripts;
#[cfg(test)]
mod tables;
