//! The tests of the real outside.
//!
//! They try each object of `ats_outside` over real files, standard output and sockets, which no contract can describe,
//! and over calls that stand for those of std, of which any may fail. They are apart from `ats_tests`, so that their
//! proofs load no tree, list or grammar. The room has no code but what these calls report, and promises nothing.
#![tactic(auto)]

#[cfg(test)]
mod outside;
mod reports;
#[cfg(test)]
mod stand_ins;
