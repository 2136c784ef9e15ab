//! The tests of the rooms below the index, and what these share with the tests of the rooms above.
//!
//! They cover what no contract says and no case of the commands prints: values of other implementations, weights at
//! their ends, each field of a proof cut or out of range. They show that calls which no command makes succeed while
//! memory is available. The cases of the commands are in `ats_cases`. A crate with tests of its own is proved twice,
//! once with them, so these are in a crate of their own and use only public calls. Each is a table of data that one
//! helper without a contract goes through, since tests are proved too. The room promises nothing.
#![tactic(auto)]

#[cfg(test)]
mod calls;
#[cfg(test)]
mod chains;
mod digests;
mod examples;
#[cfg(test)]
mod grammar;
#[cfg(test)]
mod hashes;
#[cfg(test)]
mod numbers;
#[cfg(test)]
mod trees;

pub use digests::is_digest;
pub use examples::foxes;
