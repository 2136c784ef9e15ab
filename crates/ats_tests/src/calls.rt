//! Calls that allocate and that no command makes, each once while memory is available.

use crate::examples::foxes;
use ats_base::Bytes;
use ats_bound::{Bracket, Brackets, Cut, Picks, choose};
use ats_doctree::DocTerms;
use ats_impact::{Row, Rows, Top};
use ats_lists::Lists;
use ats_tree::{Digests, Leaves};
use std::alloc::Global;
use std::test::Fail;

fn pushes_a_byte(alloc: Global) -> Result<bool, Fail> {
    let mut bytes = Bytes::of(alloc, b"fo")?;
    bytes.push(b'x')?;
    Ok(bytes.as_slice() == b"fox".as_slice())
}

fn pushes_a_row_and_a_digest(alloc: Global) -> Result<bool, Fail> {
    let (row, digest) = (
        Row {
            doc: 1,
            lower: 2,
            upper: 3,
        },
        [7; 32],
    );
    let (mut rows, mut digests) = (Rows::new(alloc), Digests::new(alloc));
    rows.push(row)?;
    digests.push(digest)?;
    Ok(rows.as_slice() == [row].as_slice() && digests.as_slice() == [digest].as_slice())
}

fn pushes_bounds(alloc: Global) -> Result<bool, Fail> {
    let bracket = Bracket {
        doc: 1,
        lo: 2,
        hi: 3,
    };
    let mut brackets = Brackets::new(alloc);
    brackets.push(bracket)?;
    let (mut picks, mut cut) = (Picks::new(alloc), Cut::new(alloc));
    picks.push(4)?;
    cut.push(5)?;
    Ok(
        brackets.as_slice() == [bracket].as_slice()
            && picks.as_slice() == [4].as_slice()
            && cut.as_slice() == [5].as_slice(),
    )
}

// "red" is the last of four terms.
fn lists_terms(alloc: Global) -> Result<bool, Fail> {
    Ok(Lists::of(alloc, &foxes(alloc)?)?.find(b"red") == Some(3))
}

// There are two terms between two sentinels.
fn has_terms_of_a_document(alloc: Global) -> Result<bool, Fail> {
    let collection = foxes(alloc)?;
    Ok(collection.documents() > 1 && DocTerms::of(alloc, &collection, 1)?.len() == 4)
}

fn chooses_the_best(alloc: Global) -> Result<bool, Fail> {
    let brackets = [
        Bracket {
            doc: 2,
            lo: 6378,
            hi: 6378,
        },
        Bracket {
            doc: 1,
            lo: 13014,
            hi: 13014,
        },
    ];
    Ok(choose(alloc, &brackets, Top::new(1)?)?.as_slice() == [1].as_slice())
}

#[test]
fn memory_is_there(rt: HostRuntime) -> Result<(), Fail> {
    assert!(rt; pushes_a_byte(rt.alloc())?);
    assert!(rt; pushes_a_row_and_a_digest(rt.alloc())?);
    assert!(rt; pushes_bounds(rt.alloc())?);
    assert!(rt; lists_terms(rt.alloc())?);
    assert!(rt; has_terms_of_a_document(rt.alloc())?);
    assert!(rt; chooses_the_best(rt.alloc())?);
    Ok(())
}
