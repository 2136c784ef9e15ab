//! Links, a caller and a door over the calls of std, for TCP. No call of theirs loops.

ghost use Rattle.std.specs.Prelude.{◌≡◌, true, false, None, is_some, option_map, IfOk, OnOk, OnErr};
ghost use Rattle.std.proofs.Props.{props};
ghost use Rattle.ats_base.specs.Links.{accepting_out, counting_accept};
ghost use Rattle.ats_outside.specs.Calls.{IsUnused, WaitsAtMost, longest_wait};
ghost use Rattle.ats_outside.specs.Begun.{told_caller, told_door};

use crate::calls::{Net, Stream};
use crate::counts::{Counts, Faults};
use ats_base::{Caller, Door, Failed, Link};
use std::io;
use std::time::Duration;

// How many seconds each call that connects, reads or writes waits for a peer.
const PATIENCE: u64 = 30;

// How many seconds the end of a link waits for the peer.
const PARTING: u64 = 1;

// How many bytes that nobody read the end of a link takes.
const UNREAD: usize = 1 << 16;

/// One end of a conversation. Dropping it ends the conversation.
#[derive(Drop)]
pub struct TcpLink<S: Stream> {
    stream: S,
    counts: Counts,
    ghost patient: { WaitsAtMost longest_wait (S.patience stream) } by { Prim.hlevel props },
}

impl<S: Stream> TcpLink<S> {
    fn new(stream: S) -> Self
        requires { WaitsAtMost longest_wait (S.patience stream) }
        ensures calm { result.counts.faults.count ≡ 0 }
        ensures fine { result.counts.faults.last_failed ≡ false }
        ensures same { result.stream ≡ stream }
    {
        TcpLink {
            stream,
            counts: Counts::new(),
        }
    }

    // Lets what was written arrive: if input is unread when a socket is closed, the system resets the connection, and
    // drops what it has not yet delivered.
    fn part(&mut self) -> io::Result<usize>
        ensures traffic { S.traffic self.new.stream ≡ S.traffic self.old.stream }
        ensures counts { self.new.counts ≡ self.old.counts }
    {
        self.stream.end_output()?;
        self.stream.set_read_limit(Duration::from_secs(PARTING))?;
        self.stream.skip(&mut [0u8; UNREAD])
    }
}

impl<S: Stream> Link for TcpLink<S> {
    ghost told = { λ l. record {
      traffic = S.traffic l.stream;
      calls = l.counts.calls;
      faults = l.counts.faults.count;
      last_failed = l.counts.faults.last_failed;
    } };

    fn read_some(&mut self, buf: &mut [u8]) -> Result<usize, Failed> {
        self.counts.call();
        match self.stream.read(buf) {
            Ok(count) => Ok(count),
            Err(_) => Err(self.counts.fail()),
        }
    }

    fn write_some(&mut self, bytes: &[u8]) -> Result<usize, Failed> {
        self.counts.call();
        match self.stream.write(bytes) {
            Ok(0) if !bytes.is_empty() => Err(self.counts.fail()),
            Ok(count) => Ok(count),
            Err(_) => Err(self.counts.fail()),
        }
    }
}

/// Connects to addresses, which are an IP address or a host's name, a colon and a port. A link that is given back takes up
/// to 65,536 bytes that nobody read, which it does not report.
#[derive(Drop)]
pub struct TcpCaller<N> {
    net: N,
    faults: Faults,
}

impl<N: Net> TcpCaller<N> {
    /// A caller that has not failed, over the real runtime (`&rt`) or another network.
    pub fn new(net: N) -> Self
        ensures faults { result.faults.count ≡ 0 }
        ensures last { result.faults.last_failed ≡ false }
        ensures net { result.net ≡ net }
    {
        TcpCaller {
            net,
            faults: Faults::new(),
        }
    }
}

impl<N: Net> Caller for TcpCaller<N> {
    type Link = TcpLink<N::Stream>;

    ghost told = { λ c. told_caller (N.told c.net) c.faults.count c.faults.last_failed };

    fn call(&mut self, address: &str) -> Result<TcpLink<N::Stream>, Failed> {
        self.faults.begin();
        match self.net.connect(address, Duration::from_secs(PATIENCE)) {
            Ok(stream) => Ok(TcpLink::new(stream)),
            Err(_) => Err(self.faults.fail()),
        }
    }

    fn give_back(&mut self, mut link: TcpLink<N::Stream>) {
        if link.counts.has_failed() {
            self.faults.count_broken();
        }
        let _ = link.part();
        self.net.close(link.stream, link.counts);
    }
}

/// Listens at one address, of the form that a caller takes, and accepts those that connect there. A link that is given
/// back ends as that of a caller.
#[derive(Drop)]
pub struct TcpDoor<N: Net> {
    net: N,
    listener: Option<N::Listener>,
    faults: Faults,
    broken: Faults,
}

impl<N: Net> TcpDoor<N> {
    /// A door that is not open and has not failed, over the real runtime (`&rt`) or another network.
    pub fn new(net: N) -> Self
        ensures closed { is_some result.listener ≡ false }
        ensures faults { result.faults.count ≡ 0 }
        ensures last { result.faults.last_failed ≡ false }
        ensures broken { result.broken.count ≡ 0 }
        ensures net { result.net ≡ net }
    {
        TcpDoor {
            net,
            listener: None,
            faults: Faults::new(),
            broken: Faults::new(),
        }
    }

    fn admit(&mut self) -> io::Result<N::Stream>
        requires { is_some self.old.listener ≡ true }
        ensures ok { OnOk result (N.told self.new.net ≡ option_map accepting_out (N.told self.old.net)) }
        ensures err { OnErr result (N.told self.new.net ≡ option_map counting_accept (N.told self.old.net)) }
        ensures new { IfOk result (λ stream. IsUnused (is_some (N.told self.old.net)) (N.Stream.traffic stream)) }
        ensures patient { IfOk result (λ stream. WaitsAtMost longest_wait (N.Stream.patience stream)) }
        ensures stays { is_some self.new.listener ≡ true }
        ensures faults { self.new.faults ≡ self.old.faults }
        ensures broken { self.new.broken ≡ self.old.broken }
    {
        let Some(listener) = &self.listener else {
            unreachable!();
        };
        self.net.accept(listener, Duration::from_secs(PATIENCE))
    }
}

impl<N: Net> Door for TcpDoor<N> {
    type Link = TcpLink<N::Stream>;

    ghost told = { λ d. told_door (N.told d.net) (is_some d.listener)
        d.faults.count d.broken.count d.faults.last_failed };

    fn listen(&mut self, address: &str) -> Result<(), Failed> {
        self.faults.begin();
        match self.net.listen(address) {
            Ok(listener) => {
                self.listener = Some(listener);
                Ok(())
            }
            Err(_) => Err(self.faults.fail()),
        }
    }

    fn accept(&mut self) -> Result<TcpLink<N::Stream>, Failed> {
        self.faults.begin();
        match self.admit() {
            Ok(stream) => Ok(TcpLink::new(stream)),
            Err(_) => Err(self.faults.fail()),
        }
    }

    fn give_back(&mut self, mut link: TcpLink<N::Stream>) {
        if link.counts.has_failed() {
            self.broken.count_broken();
        }
        let _ = link.part();
        self.net.close(link.stream, link.counts);
    }
}
