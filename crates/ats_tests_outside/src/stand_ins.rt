//! Calls that stand for those of std, over the objects in memory. They report what they did. One of them can be made to
//! fail, and those that write can be made to write nothing.

ghost use Rattle.std.specs.Prelude.{Some, Ok, Err, map, option_map, string_bytes};
ghost use Rattle.std.specs.Duration.{as_nanos};
ghost use Rattle.std.specs.declared.io.ErrorKind.TheVariants.{OutOfMemory};
ghost use Rattle.ats_base.specs.Memory.{told_files};
ghost use Rattle.ats_base.specs.MemoryLinks.{told_link};
ghost use Rattle.ats_tests_outside.specs.Inner.StandIns.{told_asks};

use crate::reports::{Asks, FileCall, Opened};
use ats_base::{Bytes, Caller, Link, MemCaller, MemLink, MemShelf, MemSink, Shelf, Sink};
use ats_outside::{Counts, Files, Net, Print, Stream, Words};
use std::alloc::Global;
use std::cell::{Cell, RefCell};
use std::io;
use std::time::Duration;

/// What the calls share: the names of those made; after how many one fails; whether they write nothing; and whether
/// there is no memory for names of files.
#[derive(Drop)]
pub struct Script {
    made: RefCell<String>,
    before_fault: Cell<u64>,
    writes_nothing: Cell<bool>,
    forgets_names: Cell<bool>,
}

impl Script {
    /// Nothing fails.
    pub fn new(alloc: Global) -> Self {
        Script {
            made: RefCell::new(String::new(alloc)),
            before_fault: Cell::new(u64::MAX),
            writes_nothing: Cell::new(false),
            forgets_names: Cell::new(false),
        }
    }

    /// After so many further calls one fails.
    pub fn fail_after(&self, calls: u64) {
        self.before_fault.set(calls);
    }

    pub fn write_nothing(&self) {
        self.writes_nothing.set(true);
    }

    pub fn forget_names(&self) {
        self.forgets_names.set(true);
    }

    /// Whether these are the names of the calls since this was asked last, each with a space after it.
    pub fn made(&self, alloc: Global, names: &str) -> bool {
        match self.made.try_replace(String::new(alloc)) {
            Ok(made) => made.as_str() == names,
            Err(_) => false,
        }
    }

    fn note(&self, name: &str) {
        if let Ok(mut made) = self.made.try_borrow_mut() {
            let _ = made.push_str(name);
            let _ = made.push_str(" ");
        }
    }

    // Notes a call, and returns whether it must fail.
    fn fails(&self, name: &str) -> bool {
        self.note(name);
        let left = self.before_fault.get();
        self.before_fault.set(left.wrapping_sub(1));
        left == 0
    }

    fn call(&self, name: &str) -> io::Result<()> {
        if self.fails(name) {
            Err(fault())
        } else {
            Ok(())
        }
    }

    // A limit of time is noted before its call.
    fn limited(&self, limit: Duration, name: &str) -> io::Result<()> {
        self.note(match limit.as_secs() {
            1 => "1s",
            30 => "30s",
            _ => "?",
        });
        self.call(name)
    }
}

// As of a call that waited too long.
fn fault() -> io::Error {
    io::Error::from(io::ErrorKind::WouldBlock)
}

/// Words that are held in memory.
#[derive(Drop)]
pub struct SomeWords(pub Vec<String>);

impl Words for SomeWords {
    ghost returned = { λ w. Some (Ok (map string_bytes w.0.items)) };

    fn words(self) -> io::Result<Vec<String>> {
        Ok(self.0)
    }
}

/// Words for which there is no memory.
#[derive(Drop)]
pub struct NoWords;

impl Words for NoWords {
    ghost returned = { λ _. Some (Err OutOfMemory) };

    fn words(self) -> io::Result<Vec<String>> {
        Err(io::Error::from(io::ErrorKind::OutOfMemory))
    }
}

#[derive(Drop)]
pub struct SomeFiles<'a> {
    pub shelf: MemShelf,
    pub asks: Asks,
    pub alloc: Global,
    pub script: &'a Script,
}

#[derive(Drop)]
pub struct OpenFile {
    name: Bytes,
    bytes: Bytes,
    place: u64,
}

impl Files for SomeFiles<'_> {
    type File = OpenFile;

    ghost content = { λ f. Some (told_files f.shelf.files) };

    ghost asked = { λ f. told_asks f.asks };

    ghost told = { λ f. Some (record { name = f.name; bytes = f.bytes; place = f.place }) };

    fn create(&mut self, name: &str) -> io::Result<()> {
        self.asks.note(name.as_bytes(), FileCall::Start);
        self.script.call("create")?;
        match self.shelf.start(name) {
            Ok(()) => Ok(()),
            Err(_) => Err(fault()),
        }
    }

    fn append(&mut self, name: &str, bytes: &[u8]) -> io::Result<usize> {
        self.asks.note(name.as_bytes(), FileCall::Append);
        if self.script.fails("append") {
            return Err(fault());
        }
        if self.script.writes_nothing.get() {
            return match self.shelf.append(name, &[]) {
                Ok(_) => Ok(0),
                Err(_) => Err(fault()),
            };
        }
        match self.shelf.append(name, bytes) {
            Ok(count) => Ok(count),
            Err(_) => Err(fault()),
        }
    }

    fn open(&mut self, name: &str, place: u64) -> io::Result<OpenFile> {
        self.asks
            .note(name.as_bytes(), FileCall::Read { from: place });
        self.script.call("open")?;
        let Some(bytes) = self.shelf.bytes_of(name) else {
            return Err(fault());
        };
        let Ok(bytes) = Bytes::of(self.alloc, bytes) else {
            return Err(fault());
        };
        let Ok(name) = Bytes::of(self.alloc, name.as_bytes()) else {
            return Err(fault());
        };
        Ok(OpenFile { name, bytes, place })
    }

    fn seek(&mut self, file: &mut OpenFile, place: u64) -> io::Result<()> {
        self.asks
            .note(file.name.as_slice(), FileCall::Read { from: place });
        self.script.call("seek")?;
        file.place = place;
        Ok(())
    }

    fn read(&mut self, file: &mut OpenFile, buf: &mut [u8]) -> io::Result<usize> {
        self.script.call("read")?;
        let bytes = file.bytes.as_slice();
        let start = (file.place as usize).min(bytes.len());
        let count = (bytes.len() - start).min(buf.len()).min(3);
        buf[..count].copy_from_slice(&bytes[start..start + count]);
        Ok(count)
    }

    fn keep(&self, name: &str) -> Option<String> {
        if self.script.forgets_names.get() {
            return None;
        }
        String::from_str(self.alloc, name).ok()
    }
}

#[derive(Drop)]
pub struct SomePrint<'a> {
    pub sink: MemSink,
    pub script: &'a Script,
}

impl Print for SomePrint<'_> {
    ghost printed = { λ p. Some p.sink.taken };

    fn write(&mut self, bytes: &[u8]) -> io::Result<usize> {
        if self.script.fails("print") {
            return Err(fault());
        }
        if self.script.writes_nothing.get() {
            return Ok(0);
        }
        match self.sink.write_some(bytes) {
            Ok(count) => Ok(count),
            Err(_) => Err(fault()),
        }
    }
}

#[derive(Drop)]
pub struct SomeNet<'a> {
    pub caller: MemCaller,
    pub opened: Opened,
    pub alloc: Global,
    pub script: &'a Script,
}

impl<'a> Net for SomeNet<'a> {
    type Stream = SomeStream<'a>;

    type Listener = ();

    ghost told = { λ n. Some n.opened };

    fn connect(&mut self, address: &str, limit: Duration) -> io::Result<SomeStream<'a>> {
        self.script.limited(limit, "connect")?;
        self.opened.note(address)?;
        let Ok(link) = self.caller.call(address) else {
            return Err(fault());
        };
        self.opened.hand_out()?;
        Ok(SomeStream {
            link,
            patience: Some(limit),
            script: self.script,
        })
    }

    fn listen(&mut self, address: &str) -> io::Result<()> {
        self.script.call("listen")?;
        self.opened.note(address)
    }

    fn accept(&mut self, _: &(), limit: Duration) -> io::Result<SomeStream<'a>> {
        self.opened.count_accept();
        self.script.limited(limit, "accept")?;
        self.opened.hand_out()?;
        Ok(SomeStream {
            link: MemLink::new(self.alloc, Bytes::new(self.alloc)),
            patience: Some(limit),
            script: self.script,
        })
    }

    fn close(&mut self, stream: SomeStream<'a>, counts: Counts) {
        self.script.note("close");
        self.opened.take_back(stream.link, counts);
    }
}

#[derive(Drop)]
pub struct SomeStream<'a> {
    link: MemLink,
    patience: Option<Duration>,
    script: &'a Script,
}

impl Stream for SomeStream<'_> {
    ghost traffic = { λ s. (told_link s.link).traffic };

    ghost patience = { λ s. option_map as_nanos s.patience };

    fn read(&mut self, buf: &mut [u8]) -> io::Result<usize> {
        if self.script.fails("read") {
            return Err(fault());
        }
        match self.link.read_some(buf) {
            Ok(count) => Ok(count),
            Err(_) => Err(fault()),
        }
    }

    fn write(&mut self, bytes: &[u8]) -> io::Result<usize> {
        if self.script.fails("write") {
            return Err(fault());
        }
        if self.script.writes_nothing.get() {
            return Ok(0);
        }
        match self.link.write_some(bytes) {
            Ok(count) => Ok(count),
            Err(_) => Err(fault()),
        }
    }

    fn end_output(&self) -> io::Result<()> {
        self.script.call("end-output")
    }

    fn set_read_limit(&mut self, limit: Duration) -> io::Result<()> {
        self.patience = None;
        self.script.limited(limit, "read-limit")
    }

    fn skip(&mut self, _: &mut [u8]) -> io::Result<usize> {
        self.script.call("skip")?;
        Ok(0)
    }
}
