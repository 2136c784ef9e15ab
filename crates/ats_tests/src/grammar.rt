//! Two proofs that are cut or have a field out of range, and the fields of another format.

use ats_grammar::{Reader, ShapeFault, ShapeKind, scan};
use std::alloc::{AllocError, Global};
use std::process::Abort;
use std::test::*;

// The header, the dictionary section, the slots and the met ids for "red hen" over ["red fox", "red red hen",
// "blue hen"], with any digests.
const BEGUN: [&[u8]; 11] = [
    &[1, 0, 0, 0, 3, 0, 0, 0, 6],
    &[7; 96],
    &[0, 2, 0, 2],
    b"\x00\x00\x00\x03\x03hen\x00\x00\x00\x02",
    &[7; 32],
    b"\x00\x00\x00\x04\x03red\x00\x00\x00\x02",
    &[7; 32],
    &[0, 3],
    &[7; 96],
    &[1, 0, 0, 1, 0, 1],
    &[0, 0, 0, 3, 0, 0, 0, 0, 0, 0, 0, 1, 0, 0, 0, 2],
];

// Two entries each, and the row of document 1.
const TNRA: [&[u8]; 3] = [
    &[0, 0, 0, 2, 0, 0, 0, 2, 4, 39, 0, 0, 0, 1, 3, 128, 0, 0],
    &[0, 0, 0, 2, 0, 0, 0, 1, 4, 249, 0, 0, 0, 0, 4, 39, 0, 0],
    &[0, 1, 0, 0, 0, 1],
];

// One entry and one digest for hen, two entries for red, the documents, the terms of each, and the row of document 1.
const TRA: [&[u8]; 18] = [
    &[0, 0, 0, 1, 0, 0, 0, 2, 4, 39, 0, 1],
    &[7; 32],
    &[0, 0, 0, 2, 0, 0, 0, 1, 4, 249, 0, 0, 0, 0, 4, 39, 0, 0],
    &[7; 108],
    &[0, 0, 0, 0],
    b"\x00\x02\x00\x00\x00\x01\x03fox\x03\x84\x00\x00\x00\x02\x03red\x04\x27",
    &[0, 2],
    &[7; 64],
    &[0, 0, 0, 1, 0, 1],
    b"\x00\x02\x00\x00\x00\x01\x03hen\x03\x80\x00\x00\x00\x02\x03red\x04\xf9",
    &[0, 2],
    &[7; 64],
    &[1, 0, 0, 1, 0, 1],
    b"\x00\x02\x00\x00\x00\x02\x03hen\x04\x27\x00\x00\x00\x03\x01\xff\x00\x00",
    &[0, 1],
    &[7; 32],
    &[1, 0, 0, 0, 0, 0],
    &[0, 1, 0, 0, 0, 1],
];

fn proof(alloc: Global, algorithm: u8, rest: &[&[u8]]) -> Result<Vec<u8>, AllocError> {
    let mut out = Vec::new(alloc);
    out.extend_from_slice(b"ATSP\x01")?;
    out.push(algorithm)?;
    for part in BEGUN.iter().chain(rest) {
        out.extend_from_slice(part)?;
    }
    Ok(out)
}

fn fault(at: u64, kind: ShapeKind) -> Result<(), ShapeFault> {
    Err(ShapeFault { at, kind })
}

fn has_size(rt: &impl Abort, bytes: &mut Vec<u8>, size: u64) -> Result<(), Fail> {
    assert_eq!(rt; bytes.len() as u64, size);
    assert_eq!(rt; scan(bytes), Ok(()));
    bytes.push(0)?;
    assert_eq!(rt; scan(bytes), fault(size, ShapeKind::Trailing));
    Ok(())
}

#[test]
fn worked_proofs(rt: HostRuntime) -> Result<(), Fail> {
    has_size(&rt, &mut proof(rt.alloc(), 2, &TNRA)?, 365)?;
    has_size(&rt, &mut proof(rt.alloc(), 1, &TRA)?, 751)
}

// Where the fields of the shorter proof begin, and its end.
const TNRA_FIELDS: [usize; 48] = [
    0, 4, 5, 6, 7, 11, 15, 47, 79, 111, 113, 115, 119, 120, 123, 127, 159, 163, 164, 167, 171, 203,
    205, 237, 269, 301, 302, 304, 305, 307, 311, 315, 319, 323, 327, 331, 333, 337, 339, 341, 345,
    349, 351, 355, 357, 359, 361, 365,
];

// Where the fields of the longer proof begin from its prefixes on, and its end.
const TRA_FIELDS: [usize; 68] = [
    323, 327, 331, 333, 335, 367, 371, 375, 377, 381, 383, 385, 389, 421, 425, 457, 461, 493, 497,
    499, 503, 504, 507, 509, 513, 514, 517, 519, 521, 553, 585, 586, 588, 589, 591, 593, 597, 598,
    601, 603, 607, 608, 611, 613, 615, 647, 679, 680, 682, 683, 685, 687, 691, 692, 695, 697, 701,
    702, 703, 705, 707, 739, 740, 742, 743, 745, 747, 751,
];

// Each field without its last byte.
fn cuts(rt: &impl Abort, bytes: &[u8], fields: &[usize]) -> Result<(), Fail> {
    for (start, end) in fields.iter().zip(fields.iter().skip(1)) {
        let cut = bytes
            .get(..end.saturating_sub(1))
            .ok_or("the proof is as long")?;
        assert_eq!(rt; scan(cut), fault(*start as u64, ShapeKind::Cut));
    }
    Ok(())
}

#[test]
fn each_field_is_cut(rt: HostRuntime) -> Result<(), Fail> {
    cuts(&rt, &proof(rt.alloc(), 2, &TNRA)?, &TNRA_FIELDS)?;
    cuts(&rt, &proof(rt.alloc(), 1, &TRA)?, &TNRA_FIELDS[..34])?;
    cuts(&rt, &proof(rt.alloc(), 1, &TRA)?, &TRA_FIELDS)
}

// A place, the bytes put there, and the fault: in the fields that both have, each below and above its range if that is
// possible.
const BEGUN_FAULTS: [(usize, &[u8], u64, ShapeKind); 27] = [
    (0, b"ATSO", 0, ShapeKind::Magic),
    (0, b"ATSQ", 0, ShapeKind::Magic),
    (4, &[0], 4, ShapeKind::Version),
    (4, &[3], 4, ShapeKind::Version),
    (5, &[0], 5, ShapeKind::Algorithm),
    (5, &[3], 5, ShapeKind::Algorithm),
    (6, &[0], 6, ShapeKind::Version),
    (6, &[2], 6, ShapeKind::Version),
    (7, &[0, 0, 0, 0], 7, ShapeKind::Count),
    (7, &[0, 1, 0, 1], 7, ShapeKind::Count),
    (11, &[0, 0, 0, 1], 11, ShapeKind::Count),
    (11, &[1, 0, 0, 3], 11, ShapeKind::Count),
    (111, &[0, 0], 111, ShapeKind::Count),
    (111, &[0, 33], 111, ShapeKind::Count),
    (113, &[0, 0], 113, ShapeKind::Count),
    (113, &[0, 65], 113, ShapeKind::Count),
    (119, &[65], 119, ShapeKind::Count),
    (159, &[0, 0, 0, 3], 159, ShapeKind::Order),
    (163, &[65], 163, ShapeKind::Count),
    (301, &[2], 301, ShapeKind::Count),
    (304, &[2], 304, ShapeKind::Count),
    (302, &[0, 1, 1, 0, 0], 305, ShapeKind::Order),
    (307, &[0, 1, 0, 1], 307, ShapeKind::Count),
    (315, &[0, 0, 0, 0], 315, ShapeKind::Order),
    (319, &[0, 0, 0, 1], 319, ShapeKind::Order),
    (323, &[0, 0, 0, 0], 323, ShapeKind::Count),
    (323, &[0, 1, 0, 1], 323, ShapeKind::Count),
];

// The same in the later fields of the shorter proof.
const TNRA_FAULTS: [(usize, &[u8], u64, ShapeKind); 3] = [
    (341, &[0, 0, 0, 0], 341, ShapeKind::Count),
    (341, &[0, 1, 0, 1], 341, ShapeKind::Count),
    (359, &[3, 233], 359, ShapeKind::Count),
];

// The same in the later fields of the longer proof.
const TRA_FAULTS: [(usize, &[u8], u64, ShapeKind); 28] = [
    (367, &[0, 0, 0, 0], 367, ShapeKind::Count),
    (367, &[0, 1, 0, 1], 367, ShapeKind::Count),
    (493, &[0, 1, 0, 1], 493, ShapeKind::Count),
    (497, &[0, 0], 497, ShapeKind::Count),
    (497, &[0, 65], 497, ShapeKind::Count),
    (503, &[65], 503, ShapeKind::Count),
    (509, &[0, 0, 0, 1], 509, ShapeKind::Order),
    (513, &[65], 513, ShapeKind::Count),
    (585, &[2], 585, ShapeKind::Count),
    (588, &[2], 588, ShapeKind::Count),
    (586, &[0, 1, 1, 0, 0], 589, ShapeKind::Order),
    (591, &[0, 0], 591, ShapeKind::Count),
    (591, &[0, 65], 591, ShapeKind::Count),
    (597, &[65], 597, ShapeKind::Count),
    (603, &[0, 0, 0, 1], 603, ShapeKind::Order),
    (607, &[65], 607, ShapeKind::Count),
    (679, &[2], 679, ShapeKind::Count),
    (682, &[2], 682, ShapeKind::Count),
    (680, &[0, 2, 1, 0, 1], 683, ShapeKind::Order),
    (685, &[0, 0], 685, ShapeKind::Count),
    (685, &[0, 65], 685, ShapeKind::Count),
    (691, &[65], 691, ShapeKind::Count),
    (697, &[0, 0, 0, 2], 697, ShapeKind::Order),
    (701, &[65], 701, ShapeKind::Count),
    (739, &[2], 739, ShapeKind::Count),
    (742, &[2], 742, ShapeKind::Count),
    (740, &[0, 1, 0, 0, 0], 743, ShapeKind::Order),
    (745, &[3, 233], 745, ShapeKind::Count),
];

fn faults(
    rt: &impl Abort,
    alloc: Global,
    bytes: &[u8],
    cases: &[(usize, &[u8], u64, ShapeKind)],
) -> Result<(), Fail> {
    for (from, instead, at, kind) in cases {
        let mut changed = Vec::new(alloc);
        changed.extend_from_slice(bytes.get(..*from).ok_or("the proof is as long")?)?;
        changed.extend_from_slice(instead)?;
        assert_eq!(rt; scan(&changed), fault(*at, *kind));
    }
    Ok(())
}

#[test]
fn each_field_has_its_faults(rt: HostRuntime) -> Result<(), Fail> {
    let (tnra, tra) = (proof(rt.alloc(), 2, &TNRA)?, proof(rt.alloc(), 1, &TRA)?);
    faults(&rt, rt.alloc(), &tnra, &BEGUN_FAULTS)?;
    faults(&rt, rt.alloc(), &tnra, &TNRA_FAULTS)?;
    faults(&rt, rt.alloc(), &tra, &BEGUN_FAULTS)?;
    faults(&rt, rt.alloc(), &tra, &TRA_FAULTS)
}

// A magic number, a length and a title, a header and one digest.
fn song(alloc: Global) -> Result<Vec<u8>, AllocError> {
    let mut out = Vec::new(alloc);
    out.extend_from_slice(b"SONG\x04lark")?;
    out.extend_from_slice(&[1, 0, 0, 0, 3, 0, 0, 0, 6])?;
    out.extend_from_slice(&[7; 96])?;
    out.extend_from_slice(&[1])?;
    out.extend_from_slice(&[8; 32])?;
    Ok(out)
}

#[test]
fn a_reader_lends_the_fields_of_another_format(rt: HostRuntime) -> Result<(), Fail> {
    let song = song(rt.alloc())?;
    let mut reader = Reader::new(&song, 147)?;
    let magic = 0x534f_4e47;
    assert_eq!(rt;
        reader.number(4, magic, 0x534f_4e47, ShapeKind::Magic)?,
        0x534f_4e47
    );
    let size = reader.number(1, 0, 200, ShapeKind::Count)?;
    assert_eq!(rt; reader.bytes(size)?, b"lark".as_slice());
    assert_eq!(rt; Some(reader.header()?), song.get(9..114));
    let count = reader.number(1, 0, 32, ShapeKind::Count)?;
    assert_eq!(rt; reader.digests(count)?, [8; 32].as_slice());
    assert_eq!(rt; reader.end(), Ok(()));
    Ok(())
}

#[test]
fn a_reader_stays_before_a_wrong_field(rt: HostRuntime) -> Result<(), Fail> {
    let song = song(rt.alloc())?;
    assert_eq!(rt;
        Reader::new(&song, 146).err(),
        fault(146, ShapeKind::Long).err()
    );
    let mut reader = Reader::new(&song, 147)?;
    let _ = reader.bytes(9)?;
    assert_eq!(rt;
        reader.number(1, 2, 9, ShapeKind::Order).err(),
        fault(9, ShapeKind::Order).err()
    );
    assert_eq!(rt; reader.digests(5).err(), fault(137, ShapeKind::Cut).err());
    let _ = reader.header()?;
    assert_eq!(rt; reader.header().err(), fault(115, ShapeKind::Count).err());
    assert_eq!(rt; reader.end(), fault(114, ShapeKind::Trailing));
    Ok(())
}
