//! The calls of std by the real runtime. What they do is not proved, so they report nothing.

ghost use Rattle.std.specs.Prelude.{None};

use crate::calls::{Files, Net, Print, Stream, Words};
use crate::counts::Counts;
use std::env::{self, Env};
use std::fs::{File, OpenOptions};
use std::io::{self, Read, Seek, SeekFrom, Write};
use std::net::{self, OpenListener, OpenStream, Shutdown, SocketAddr, TcpListener, TcpStream};
use std::rt;
use std::time::Duration;

/// A connected socket of the runtime.
#[derive(Drop)]
pub struct RealStream<S>(S);

impl<R: Env + AllocGlobal> Words for &R {
    ghost returned = { λ _. None };

    fn words(self) -> io::Result<Vec<String>> {
        let words = env::args(self)?.skip(1).collect(self.alloc())?;
        Ok(words)
    }
}

impl<R: rt::Files + AllocGlobal> Files for &R {
    type File = R::File;

    ghost content = { λ _. None };

    ghost asked = { λ _. None };

    ghost told = { λ _. None };

    fn create(&mut self, name: &str) -> io::Result<()> {
        File::create(*self, name).map(drop)
    }

    fn append(&mut self, name: &str, bytes: &[u8]) -> io::Result<usize> {
        OpenOptions::new()
            .append(true)
            .open(*self, name)?
            .write(bytes)
    }

    fn open(&mut self, name: &str, place: u64) -> io::Result<R::File> {
        let mut file = File::open(*self, name)?;
        file.seek(SeekFrom::Start(place))?;
        Ok(file)
    }

    fn seek(&mut self, file: &mut R::File, place: u64) -> io::Result<()> {
        file.seek(SeekFrom::Start(place)).map(drop)
    }

    fn read(&mut self, file: &mut R::File, buf: &mut [u8]) -> io::Result<usize> {
        file.read(buf)
    }

    fn keep(&self, name: &str) -> Option<String> {
        String::from_str(self.alloc(), name).ok()
    }
}

impl<R: io::Print> Print for &R {
    ghost printed = { λ _. None };

    fn write(&mut self, bytes: &[u8]) -> io::Result<usize> {
        self.write_some(bytes)
    }
}

// The network, with a limit of time on connecting.
#[derive(Drop)]
struct Patient<'a, R: net::Net> {
    net: &'a R,
    limit: Duration,
}

impl<'a, R: net::Net> net::Net for Patient<'a, R> {
    type Stream = R::Stream;

    type Listener = R::Listener;

    fn bind(&self, address: SocketAddr) -> io::Result<R::Listener> {
        self.net.bind(address)
    }

    fn connect(&self, address: SocketAddr) -> io::Result<R::Stream> {
        self.net.connect_timeout(address, self.limit)
    }

    fn lookup_host(&self, host: &str, port: u16, found: &mut [SocketAddr]) -> io::Result<usize> {
        self.net.lookup_host(host, port, found)
    }
}

// A stream that waits so long in each call, and sends each piece at once.
fn prepared<S: OpenStream + Drop>(stream: S, limit: Duration) -> io::Result<RealStream<S>> {
    stream.set_read_timeout(Some(limit))?;
    stream.set_write_timeout(Some(limit))?;
    stream.set_nodelay(true)?;
    Ok(RealStream(stream))
}

impl<R: net::Net> Net for &R {
    type Stream = RealStream<R::Stream>;

    type Listener = R::Listener;

    ghost told = { λ _. None };

    fn connect(&mut self, address: &str, limit: Duration) -> io::Result<RealStream<R::Stream>> {
        prepared(
            TcpStream::connect(&Patient { net: *self, limit }, address)?,
            limit,
        )
    }

    fn listen(&mut self, address: &str) -> io::Result<R::Listener> {
        TcpListener::bind(*self, address)
    }

    fn accept(
        &mut self,
        listener: &R::Listener,
        limit: Duration,
    ) -> io::Result<RealStream<R::Stream>> {
        let (stream, _) = listener.accept()?;
        prepared(stream, limit)
    }

    fn close(&mut self, stream: RealStream<R::Stream>, _: Counts) {
        drop(stream)
    }
}

impl<S: Read + Write + OpenStream + Drop> Stream for RealStream<S> {
    ghost traffic = { λ _. None };

    ghost patience = { λ _. None };

    fn read(&mut self, buf: &mut [u8]) -> io::Result<usize> {
        self.0.read(buf)
    }

    fn write(&mut self, bytes: &[u8]) -> io::Result<usize> {
        self.0.write(bytes)
    }

    fn end_output(&self) -> io::Result<()> {
        self.0.shutdown(Shutdown::Write)
    }

    fn set_read_limit(&mut self, limit: Duration) -> io::Result<()> {
        self.0.set_read_timeout(Some(limit))
    }

    fn skip(&mut self, buf: &mut [u8]) -> io::Result<usize> {
        self.0.read(buf)
    }
}
