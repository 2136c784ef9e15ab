//! Weights at the ends of their formulas.

use ats_impact::{idf, impact};

// How many documents there are, how many of them hold a term, and the term's weight by that.
const IDFS: [(u32, u32, u32); 5] = [
    (1, 1, 4),
    (65_536, 1, 124),
    (65_536, 65_536, 1),
    (3, 0, 25),
    (1, 5, 1),
];

#[test]
fn weights_at_the_ends(rt: HostRuntime) {
    for (documents, having, wanted) in IDFS {
        assert!(rt; idf(documents, having) == wanted, "{having} of {documents}");
    }
    assert!(rt; impact(1, 1_048_576, 1_048_576, 65_536) == 1);
}
