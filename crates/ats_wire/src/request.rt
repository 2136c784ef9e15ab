//! A request, read from the bytes of its frame.

ghost use Rattle.std.specs.Prelude.{◌≡◌, ◌≢◌, ◌≤◌, ℕ, List, length, IfOk, IfErr, IfSome, IfNone};
ghost use Rattle.ats_proof.specs.declared.record.Algorithm.{Algorithm};
ghost use Rattle.ats_wire.specs.Requests.{Spells, Asks, IsRefused, algorithm_byte};

use ats_impact::Top;
use ats_proof::Algorithm;
use byteorder::{BigEndian, ByteOrder};

// The code of a frame that spells no request, and that of one with a number of rows not in 1 to 1,000.
const NO_REQUEST: u8 = 1;

const ROWS_OUT: u8 = 4;

pub(crate) const VERSION: u8 = 1;

/// What a client asks: a number of the best documents for a query, with a proof by this algorithm. Whether the query
/// has terms, and not too many, is not checked here.
#[derive(Clone, Copy, Debug)]
pub struct Request<'a> {
    pub algorithm: Algorithm,
    pub top: Top,
    pub query: &'a str,
}

impl<'a> Request<'a> {
    /// What a frame asks; `frame` is its body, the bytes after its length. The error is the code of the reply.
    pub fn read(frame: &'a [u8]) -> Result<Request<'a>, u8>
        requires least { 6 ≤ length frame.now }
        requires most { length frame.now ≤ 4096 }
        ensures asks { IfOk result (λ request.
            Asks frame.now (record { algorithm = request.algorithm; top = request.top; query = request.query.now })) }
        ensures refused { IfErr result (λ code. IsRefused frame.now code) }
    {
        let Some((algorithm, rows, query)) = spelled(frame) else {
            return Err(NO_REQUEST);
        };
        match Top::new(rows as u32) {
            Ok(top) => Ok(Request {
                algorithm,
                top,
                query,
            }),
            Err(_) => Err(ROWS_OUT),
        }
    }
}

// The algorithm, the number of rows and the query, if the body spells a request.
fn spelled(body: &[u8]) -> Option<(Algorithm, u16, &str)>
    requires least { 6 ≤ length body.now }
    requires most { length body.now ≤ 4096 }
    ensures some { IfSome result (λ found. Spells body.now found.0 found.1 found.2.now) }
    ensures none { IfNone result ((algorithm : Algorithm) (rows : ℕ) (query : List ℕ)
        → Spells body.now algorithm rows query → ⊥) }
{
    let algorithm = algorithm_of(body[1])?;
    let rows = BigEndian::read_u16(&body[2..]);
    let length = BigEndian::read_u16(&body[4..]) as usize;
    if body[0] != VERSION || length != body.len() - 6 {
        return None;
    }
    match str::from_utf8(&body[6..]) {
        Ok(query) => Some((algorithm, rows, query)),
        Err(_) => None,
    }
}

fn algorithm_of(byte: u8) -> Option<Algorithm>
    ensures some { IfSome result (λ algorithm. byte ≡ algorithm_byte algorithm) }
    ensures none { IfNone result ((algorithm : Algorithm) → byte ≢ algorithm_byte algorithm) }
{
    match byte {
        1 => Some(Algorithm::Tra),
        2 => Some(Algorithm::Tnra),
        _ => None,
    }
}

/// The byte of an algorithm in a request.
pub(crate) fn byte_of(algorithm: Algorithm) -> u8
    ensures { result ≡ algorithm_byte algorithm }
{
    match algorithm {
        Algorithm::Tra => 1,
        Algorithm::Tnra => 2,
    }
}
