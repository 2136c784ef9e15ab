//! What the calls report that stand for those of std.

ghost use Rattle.std.specs.Prelude.{◌≡◌, ◌<◌, ◌+◌, [], OnOk, OnErr};
ghost use Rattle.ats_base.specs.Links.{accepted_back, counting_accept, noting_listen};
ghost use Rattle.ats_base.specs.Outside.{Calls};

use ats_base::{Bytes, MemLink};
use ats_outside::Counts;
use std::alloc::Global;
use std::io;
use std::marker::Model;

/// A kind of call on a named file.
#[derive(Clone, Copy)]
pub enum FileCall {
    Read { from: u64 },
    Start,
    Append,
}

/// A call on a named file.
#[derive(Drop)]
pub struct Asked {
    name: Bytes,
    call: FileCall,
}

/// The calls on files, as long as there is memory for them.
#[derive(Drop)]
pub struct Asks {
    alloc: Global,
    all: Option<Vec<Asked>>,
}

impl Asks {
    ghost use Rattle.ats_tests_outside.specs.Inner.StandIns.{call_of, told_asks};

    pub fn new(alloc: Global) -> Self {
        Asks {
            alloc,
            all: Some(Vec::new(alloc)),
        }
    }

    pub fn note(&mut self, name: &[u8], call: FileCall)
        ensures { Calls (told_asks self.old) (told_asks self.new) name.now (call_of call) }
    {
        let Some(mut all) = self.all.take() else {
            return;
        };
        let Ok(name) = Bytes::of(self.alloc, name) else {
            return;
        };
        if all.push(Asked { name, call }).is_ok() {
            self.all = Some(all);
        }
    }
}

/// A link that was closed, with the counts that came with it.
#[derive(Drop)]
pub struct Closed {
    link: MemLink,
    counts: Counts,
}

/// What a network did.
#[derive(Drop)]
pub struct Opened {
    alloc: Global,
    closed: Vec<Closed>,
    addresses: Vec<Bytes>,
    accepts: u64,
    out: usize,
}

impl Model for Opened {
    ghost use Rattle.std.specs.Prelude.{◌≤◌, ◌+◌, map};
    ghost use Rattle.std.specs.Vec.{vec_len, vec_capacity};
    ghost use Rattle.ats_base.specs.Links.{Opening};
    ghost use Rattle.ats_tests_outside.specs.Inner.StandIns.{told_closed};

    ghost Value = { Opening };

    ghost view = { λ o. record {
      given_back = map told_closed o.closed.items;
      addresses = o.addresses.items;
      accepts = o.accepts;
      out = o.out;
    } };

    // There is room for each link that is out.
    ghost invariant = { λ o. vec_len o.closed + o.out ≤ vec_capacity o.closed };
}

impl Opened {
    ghost use Rattle.ats_tests_outside.specs.Inner.StandIns.{told_with};

    pub fn new(alloc: Global) -> Self
        ensures { result ≡ record { given_back = []; addresses = []; accepts = 0; out = 0 } }
    {
        Opened {
            alloc,
            closed: Vec::new(alloc),
            addresses: Vec::new(alloc),
            accepts: 0,
            out: 0,
        }
    }

    pub fn note(&mut self, address: &str) -> io::Result<()>
        ensures ok { OnOk result (self.new ≡ noting_listen address.now self.old) }
        ensures err { OnErr result (self.new ≡ self.old) }
    {
        let Ok(noted) = Bytes::of(self.alloc, address.as_bytes()) else {
            return Err(full());
        };
        if self.addresses.push(noted).is_err() {
            return Err(full());
        }
        Ok(())
    }

    pub fn hand_out(&mut self) -> io::Result<()>
        ensures ok { OnOk result (self.new ≡ record self.old { out = self.old.out + 1 }) }
        ensures err { OnErr result (self.new ≡ self.old) }
    {
        let Some(out) = self.out.checked_add(1) else {
            return Err(full());
        };
        if self.closed.reserve(out).is_err() {
            return Err(full());
        }
        self.out = out;
        Ok(())
    }

    pub fn count_accept(&mut self)
        ensures { self.new ≡ counting_accept self.old }
    {
        self.accepts = self.accepts.saturating_add(1);
    }

    pub fn take_back(&mut self, link: MemLink, counts: Counts)
        requires { 0 < self.old.out }
        ensures { self.new ≡ accepted_back (told_with link counts) self.old }
    {
        let Ok(()) = self.closed.push(Closed { link, counts }) else {
            unreachable!();
        };
        self.out -= 1;
    }
}

fn full() -> io::Error {
    io::Error::from(io::ErrorKind::OutOfMemory)
}
