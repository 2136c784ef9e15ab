//! A reply that no command asks for in this way, proofs at a limit, and proofs of shares.

ghost use Rattle.std.specs.Prelude.{◌≤◌, ◌^◌, length};

use ats_base::{Bytes, Link, MemLink};
use ats_bound::{Share, Span};
use ats_hash::{Hash32, HashKind, Sha};
use ats_impact::Top;
use ats_index::Index;
use ats_proof::Algorithm;
use ats_prover::{ProveFault, prove, prove_share_within, prove_spans_within, prove_within};
use ats_terms::{Query, QueryFault};
use ats_tests::foxes;
use ats_wire::{AskFault, ask_once};
use std::alloc::Global;
use std::test::Fail;

// The link is of any kind here, so that the prover does not look into the bytes of this one.
fn asked<L: Link>(alloc: Global, link: &mut L, top: Top) -> Result<Bytes, AskFault> {
    ask_once(alloc, link, Algorithm::Tnra, top, "red hen")
}

// The byte after the reply is not part of it.
fn asks_once(alloc: Global) -> Result<bool, Fail> {
    let mut link = MemLink::new(alloc, Bytes::of(alloc, b"\x00\x00\x00\x04\x00fox!")?);
    let reply = asked(alloc, &mut link, Top::new(1)?)?;
    Ok(
        reply.as_slice() == b"fox".as_slice()
            && link.written() == b"\x00\x00\x00\x0d\x01\x02\x00\x01\x00\x07red hen".as_slice(),
    )
}

#[test]
fn asks_for_a_proof_once(rt: HostRuntime) -> Result<(), Fail> {
    assert!(rt; asks_once(rt.alloc())?);
    Ok(())
}

fn proof_of<H: HashKind>(
    alloc: Global,
    index: &Index<H>,
    query: &Query,
    top: Top,
    algorithm: Algorithm,
) -> Result<Bytes, ProveFault> {
    prove(alloc, index, query, top, algorithm)
}

fn proof_within<H: HashKind>(
    alloc: Global,
    index: &Index<H>,
    query: &Query,
    top: Top,
    algorithm: Algorithm,
    limit: u64,
) -> Result<Bytes, ProveFault>
    requires { limit ≤ 2 ^ 26 }
{
    prove_within(alloc, index, query, top, algorithm, limit)
}

// The text is any one here: the prover looks into the words of a known text.
fn query_of(alloc: Global, text: &str) -> Result<Query, QueryFault> {
    Query::read(alloc, text)
}

// Whether the proof has this many bytes, is returned within this limit and within one with room to spare, and is
// refused within one byte less.
fn fits<H: HashKind>(
    alloc: Global,
    index: &Index<H>,
    algorithm: Algorithm,
    length: u64,
) -> Result<bool, Fail>
    requires some { 1 ≤ length }
    requires few { length ≤ 2 ^ 26 }
{
    let (query, top) = (query_of(alloc, "red hen")?, Top::new(1)?);
    let whole = proof_of(alloc, index, &query, top, algorithm)?;
    let same = proof_within(alloc, index, &query, top, algorithm, length)?;
    let roomy = proof_within(alloc, index, &query, top, algorithm, 67_108_863)?;
    let less = proof_within(alloc, index, &query, top, algorithm, length - 1).err();
    Ok(
        whole.len() as u64 == length
            && same.as_slice() == whole.as_slice()
            && roomy.as_slice() == whole.as_slice()
            && less == Some(ProveFault::ProofTooLong { length }),
    )
}

fn honest_proof_fits<H: Hash32>(
    alloc: Global,
    algorithm: Algorithm,
    length: u64,
) -> Result<bool, Fail>
    requires some { 1 ≤ length }
    requires few { length ≤ 2 ^ 26 }
{
    let index = Index::<H>::build_plain(alloc, foxes(alloc)?)?;
    fits(alloc, &index, algorithm, length)
}

#[test]
fn a_limit_refuses_longer_proofs(rt: HostRuntime) -> Result<(), Fail> {
    assert!(rt; honest_proof_fits::<Sha>(rt.alloc(), Algorithm::Tnra, 365)?);
    assert!(rt; honest_proof_fits::<Sha>(rt.alloc(), Algorithm::Tra, 751)?);
    Ok(())
}

// The length of the proof of a share of `red hen`, or 0 if no cut shows it.
fn share_length<H: HashKind>(
    alloc: Global,
    index: &Index<H>,
    rows: u32,
    floor: u64,
) -> Result<usize, Fail>
    requires { rows ≤ 1000 }
{
    let query = query_of(alloc, "red hen")?;
    let proof = prove_share_within(alloc, index, &query, Share { rows, floor }, 67_108_864)?;
    Ok(proof.map_or(0, |bytes| bytes.len()))
}

// Document 1 scores 13,014, and the others 6,378.
fn shares_have_lengths<H: Hash32>(alloc: Global) -> Result<bool, Fail> {
    let index = Index::<H>::build_plain(alloc, foxes(alloc)?)?;
    Ok(
        share_length(alloc, &index, 0, 13_014)? == 747
            && share_length(alloc, &index, 1, 13_014)? == 751
            && share_length(alloc, &index, 2, 6_378)? == 755
            && share_length(alloc, &index, 0, 13_013)? == 0
            && share_length(alloc, &index, 1, 13_015)? == 0,
    )
}

#[test]
fn a_share_is_shown_or_reported_missing(rt: HostRuntime) -> Result<(), Fail> {
    assert!(rt; shares_have_lengths::<Sha>(rt.alloc())?);
    Ok(())
}

// Whether some cut shows these rows of `red hen` by TNRA.
fn are_shown<H: HashKind>(
    alloc: Global,
    index: &Index<H>,
    spans: &[Span],
    floor: u64,
) -> Result<bool, Fail>
    requires { length spans.now ≤ 1000 }
{
    let query = query_of(alloc, "red hen")?;
    let proof = prove_spans_within(alloc, index, &query, spans, floor, 67_108_864)?;
    Ok(proof.is_some())
}

fn spans_are_shown<H: Hash32>(alloc: Global) -> Result<bool, Fail> {
    let index = Index::<H>::build_plain(alloc, foxes(alloc)?)?;
    let first = Span {
        lower: 9_696,
        upper: u64::MAX,
    };
    let other = Span {
        lower: 6_378,
        upper: 9_696,
    };
    Ok(
        are_shown(alloc, &index, &[], 13_014)?
            && are_shown(alloc, &index, &[first], 9_696)?
            && are_shown(alloc, &index, &[first, other, other], 0)?
            && !are_shown(alloc, &index, &[], 13_013)?
            && !are_shown(alloc, &index, &[other], 9_696)?
            && !are_shown(alloc, &index, &[first, other], 6_377)?,
    )
}

#[test]
fn spans_are_shown_or_reported_missing(rt: HostRuntime) -> Result<(), Fail> {
    assert!(rt; spans_are_shown::<Sha>(rt.alloc())?);
    Ok(())
}
