//! The replies of a server that has an index.

ghost use Rattle.std.specs.Prelude.{◌≡◌};
ghost use Rattle.ats_top.specs.Answering.{gives, code_of_query, code_of_proof};

use ats_hash::Hash32;
use ats_index::Index;
use ats_prover::{ProveFault, prove};
use ats_terms::{Query, QueryFault};
use ats_wire::{Answerer, Reply, Request};
use std::alloc::Global;

/// Answers each request with the honest proof over an index, or with the code that says why there is none. The code is
/// 2 for a query without a term, 3 for one that is too long, 5 for a proof that is too long, and 6 if memory runs out.
#[derive(Drop)]
pub struct IndexAnswerer<'a, H: Hash32> {
    pub index: &'a Index<H>,
}

fn query_code(fault: QueryFault) -> u8
    ensures { result ≡ code_of_query fault }
{
    match fault {
        QueryFault::NoTerm => 2,
        QueryFault::TooLong { .. }
        | QueryFault::TooManyWords { .. }
        | QueryFault::TooManyTerms { .. } => 3,
        QueryFault::OutOfMemory => 6,
    }
}

fn proof_code(fault: ProveFault) -> u8
    ensures { result ≡ code_of_proof fault }
{
    match fault {
        ProveFault::ProofTooLong { .. } => 5,
        ProveFault::OutOfMemory => 6,
    }
}

impl<'a, H: Hash32> Answerer for IndexAnswerer<'a, H> {
    ghost gives = { λ answerer. gives H.hash answerer.index.now };

    fn answer(&mut self, alloc: Global, request: &Request<'_>) -> Reply {
        let query = match Query::read(alloc, request.query) {
            Ok(query) => query,
            Err(fault) => return Reply::Code(query_code(fault)),
        };
        match prove(alloc, self.index, &query, request.top, request.algorithm) {
            Ok(bytes) => Reply::Proof(bytes),
            Err(fault) => Reply::Code(proof_code(fault)),
        }
    }
}
