//! The tests of indexes, proofs and audits.
//!
//! They cover what no contract says and no case of the commands prints: refusals at limits, a reply that no command asks
//! for, and which types cross threads. They show that several threads build what one thread builds. They are apart from
//! `ats_tests`, so that the proofs of those tests load no index. The room has no code of its own and promises nothing.
#![tactic(auto)]

#[cfg(test)]
mod building;
#[cfg(test)]
mod calls;
#[cfg(test)]
mod sharing;
