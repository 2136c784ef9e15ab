//! Why nothing is shown.

ghost use Rattle.std.specs.Prelude.{◌≡◌};
ghost use Rattle.ats_reader.specs.declared.fault.Fault.TheVariants.{NoQuery, BadShape, BothRefused, OutOfMemory};

use ats_grammar::ShapeFault;
use ats_refusal::{BothRefusal, CatalogRefusal, GrowthRefusal, Refusal, TextRefusal};
use ats_terms::QueryFault;

/// Why a call shows nothing: the first of those that it can come to. Memory may run out at any time.
#[derive(Clone, Copy)]
pub(crate) enum Fault {
    /// The query is not UTF-8.
    NoText,
    /// The number of rows is not in 1 to 1,000.
    RowsOut { r: u32 },
    /// There is room for fewer rows than are asked for.
    FewRows { room: usize },
    /// The text is no query, or memory ran out.
    NoQuery(QueryFault),
    /// The bytes do not spell what they are checked for.
    BadShape(ShapeFault),
    /// The proof of an answer is refused.
    Refused(Refusal),
    /// The proof of all documents is refused.
    BothRefused(BothRefusal),
    /// There is room for fewer documents than the accepted proof shows.
    FewDocuments { room: usize, documents: usize },
    /// The text is refused.
    TextRefused(TextRefusal),
    /// The growth is refused.
    GrowthRefused(GrowthRefusal),
    /// There is room for fewer terms than the query has.
    FewTerms { room: usize, terms: usize },
    /// The proof of a catalog's answer is refused.
    CatalogRefused(CatalogRefusal),
    /// The bytes are not the roots of 1 to 4,096 shards.
    RootsOut { bytes: usize },
    OutOfMemory,
}

impl From<QueryFault> for Fault {
    ghost from_gives = { λ query fault. fault ≡ NoQuery query };

    fn from(query: QueryFault) -> Self {
        Fault::NoQuery(query)
    }
}

impl From<ShapeFault> for Fault {
    ghost from_gives = { λ shape fault. fault ≡ BadShape shape };

    fn from(shape: ShapeFault) -> Self {
        Fault::BadShape(shape)
    }
}

impl From<BothRefusal> for Fault {
    ghost from_gives = { λ refusal fault. fault ≡ BothRefused refusal };

    fn from(refusal: BothRefusal) -> Self {
        Fault::BothRefused(refusal)
    }
}

impl From<ats_bound::OutOfMemory> for Fault {
    ghost from_gives = { λ _ fault. fault ≡ OutOfMemory };

    fn from(_: ats_bound::OutOfMemory) -> Self {
        Fault::OutOfMemory
    }
}
