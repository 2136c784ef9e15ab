//! Frames of requests and replies: serves a connection, and asks one question.
//!
//! A request asks for a number of the best documents for a query, with a proof by one of the algorithms. A reply is
//! the bytes of a proof, or the code that says why there is none. A server reads frames from a link and writes one
//! reply to each, made by an [`Answerer`]; a client writes one request and reads one reply, whose proof it may check
//! while it arrives.
//!
//! It stands on the links of `ats_base`, on the number of rows, on the algorithms of proofs and on their grammar. The
//! contract promises what was read and written, if the link reports it, and the cause of each end and each fault. It
//! does not say which proof is right. In what pieces bytes are read and written may change freely; the bytes of the
//! frames may not.
//!
//! ```
//! use ats_impact::Top;
//! use ats_proof::Algorithm;
//!
//! // link: to a server
//! let bytes = ask_once(alloc, &mut link, Algorithm::Tnra, Top::new(1)?, "red hen")?;
//! // link: to a client; answerer: whoever makes the proofs, by a type that is `Answerer`
//! let mut buffer = FrameBuffer::new(alloc)?;
//! let served = serve_connection(alloc, &mut link, &mut answerer, &mut buffer);
//! let requests = served.requests; // 1, of a client that asks once
//! ```
#![tactic(auto)]

mod asking;
mod feeding;
mod frame_buffer;
mod laws;
mod memory;
mod receiving;
mod reply;
mod request;
mod sending;
mod serving;

pub use asking::{AskFault, ask_once};
pub use feeding::{Fed, ask_fed};
pub use frame_buffer::FrameBuffer;
pub use laws::{connections_end_in_one_way, replies_say_one_thing, requests_say_one_thing};
pub use memory::OutOfMemory;
pub use reply::{Answerer, Reply};
pub use request::Request;
pub use serving::{ConnectionEnd, Served, serve_connection};
