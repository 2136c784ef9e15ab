//! The calls of std that the objects make, as traits. So another implementation can stand for std, and report what its
//! calls did: then each object reports the same, by the contracts of `ats_base`.

ghost use Rattle.std.specs.Prelude.{◌≡◌, ◌⊎◌, ◌<◌, ◌≤◌, ◌++◌, List, [], ℕ, length, take, map, Option, is_some, option_map, MatchOption, Result, Ok, Err, IfOk, IfErr, IfSome, OnOk, OnErr, string_bytes};
ghost use Rattle.std.specs.Duration.{as_nanos};
ghost use Rattle.std.specs.IoError.{error_kind};
ghost use Rattle.std.specs.declared.io.ErrorKind.{ErrorKind};
ghost use Rattle.ats_base.specs.Outside.{Ask, Asked, Calls, Puts, Adds};
ghost use Rattle.ats_base.specs.Links.{Opening, Traffic, Exchanged, IsAtEnd, IsCalledAt, HasAcceptedOut, MayNoteListen, accepted_back, accepting_out, counting_accept, noting_listen};
ghost use Rattle.ats_base.specs.declared.outside.FileCall.TheVariants.{Read, Start, Append};
ghost use Rattle.ats_outside.specs.Calls.{Reading, count_moved, HasBytesOf, IsNamed, IsAt, IsReadOf, at_place, KeepsBytes, ReadsOpen, IsUnused, WaitsAtMost, connecting_out};

use crate::counts::Counts;
use std::io;
use std::time::Duration;

/// The call that returns the words which the program was started with.
pub trait Words {
    /// What the call returns, if it is reported: the bytes of the words, or the kind of its error.
    ghost returned: { Self → Option (Result (List (List ℕ)) ErrorKind) };

    /// The words after the program's name.
    fn words(self) -> io::Result<Vec<String>>
        ensures ok { IfOk result (λ words. MatchOption (returned self) (Unit {0})
            (λ told. told ≡ Ok (map string_bytes words.items))) }
        ensures err { IfErr result (λ fault. MatchOption (returned self) (Unit {0})
            (λ told. told ≡ Err (error_kind fault))) };
}

/// Calls on named files.
pub trait Files {
    /// A file that was opened to be read.
    type File: Drop;

    /// The bytes under each name, if they are reported.
    ghost content: { Self → Option (List ℕ → Option (List ℕ)) };

    /// The calls in order, if they are reported: the name of each file that was made, appended to, or read, and the place
    /// of each read.
    ghost asked: { Self → Option (List Ask) };

    /// An open file, if it is reported. It is if the calls are.
    ghost told: { Self.File → Option Reading };

    /// Makes the named file, with no bytes.
    fn create(&mut self, name: &str) -> io::Result<()>
        ensures ok { OnOk result (Puts (content self.old) (content self.new) name.now []) }
        ensures err { OnErr result ((content self.new ≡ content self.old)
            ⊎ Puts (content self.old) (content self.new) name.now []) }
        ensures asked { Calls (asked self.old) (asked self.new) name.now Start };

    /// Appends some of the bytes, from their front, to the named file, which must be there, and returns how many.
    fn append(&mut self, name: &str, bytes: &[u8]) -> io::Result<usize>
        ensures within { IfOk result (λ n. n ≤ length bytes.now) }
        ensures ok { IfOk result (λ n. Adds (content self.old) (content self.new) name.now (take n bytes.now)) }
        ensures err { OnErr result (content self.new ≡ content self.old) }
        ensures asked { Calls (asked self.old) (asked self.new) name.now Append };

    /// Opens the named file, to be read from this place on.
    fn open(&mut self, name: &str, place: u64) -> io::Result<Self::File>
        ensures bytes { IfOk result (λ file. HasBytesOf (content self.old) name.now (told file)) }
        ensures named { IfOk result (λ file. IsNamed (asked self.new) name.now (told file)) }
        ensures place { IfOk result (λ file. IsAt place (told file)) }
        ensures files { content self.new ≡ content self.old }
        ensures asked { Calls (asked self.old) (asked self.new) name.now (Read place) };

    /// An open file is to be read from this place on.
    fn seek(&mut self, file: &mut Self::File, place: u64) -> io::Result<()>
        ensures place { OnOk result (told file.new ≡ at_place place (told file.old)) }
        ensures files { content self.new ≡ content self.old }
        ensures asked { Asked (asked self.old) (asked self.new) (IsReadOf (told file.old) place) };

    /// Puts the next bytes of the file at the front of `buf`, and returns how many. 0 for a `buf` with room means that
    /// the file has ended.
    fn read(&mut self, file: &mut Self::File, buf: &mut [u8]) -> io::Result<usize>
        ensures within { IfOk result (λ n. n ≤ length buf.new) }
        ensures bytes { IfOk result (λ n. ReadsOpen (told file.old) n buf.new) }
        ensures same { OnOk result (KeepsBytes (told file.old) (told file.new)) }
        ensures files { content self.new ≡ content self.old }
        ensures asked { asked self.new ≡ asked self.old };

    /// The name to be kept, or `None` if memory runs out.
    fn keep(&self, name: &str) -> Option<String>
        ensures { IfSome result (λ kept. string_bytes kept ≡ name.now) };
}

/// Calls that print.
pub trait Print {
    /// The bytes that were printed, if they are reported.
    ghost printed: { Self → Option (List ℕ) };

    /// Prints some of the bytes, from their front, and returns how many.
    fn write(&mut self, bytes: &[u8]) -> io::Result<usize>
        ensures within { IfOk result (λ n. n ≤ length bytes.now) }
        ensures bytes { printed self.new
            ≡ option_map (λ before. before ++ take (count_moved result) bytes.now) (printed self.old) };
}

/// Calls that connect and listen.
pub trait Net {
    type Stream: Stream;

    /// What listens at an address.
    type Listener: Drop;

    /// What the calls did, if it is reported, as a door reports it: the addresses are those connected to and those
    /// listened at.
    ghost told: { Self → Option Opening };

    /// Connects to the address. For a name, each of its addresses gets this much time. Each read and write of the stream
    /// waits so long for its peer. A short piece is sent at once, and does not wait for another one.
    fn connect(&mut self, address: &str, limit: Duration) -> io::Result<Self::Stream>
        ensures ok { OnOk result (told self.new ≡ option_map (connecting_out address.now) (told self.old)) }
        ensures err { OnErr result (MayNoteListen address.now (told self.old) (told self.new)) }
        ensures new { IfOk result (λ stream. IsUnused (is_some (told self.old)) (Self.Stream.traffic stream)) }
        ensures address { IfOk result (λ stream. IsCalledAt address.now (Self.Stream.traffic stream)) }
        ensures patient { IfOk result (λ stream. WaitsAtMost (as_nanos limit) (Self.Stream.patience stream)) };

    fn listen(&mut self, address: &str) -> io::Result<Self::Listener>
        ensures ok { OnOk result (told self.new ≡ option_map (noting_listen address.now) (told self.old)) }
        ensures err { OnErr result (MayNoteListen address.now (told self.old) (told self.new)) };

    /// The next stream, which waits and sends as one that was connected.
    fn accept(&mut self, listener: &Self::Listener, limit: Duration) -> io::Result<Self::Stream>
        ensures ok { OnOk result (told self.new ≡ option_map accepting_out (told self.old)) }
        ensures err { OnErr result (told self.new ≡ option_map counting_accept (told self.old)) }
        ensures new { IfOk result (λ stream. IsUnused (is_some (told self.old)) (Self.Stream.traffic stream)) }
        ensures patient { IfOk result (λ stream. WaitsAtMost (as_nanos limit) (Self.Stream.patience stream)) };

    /// Closes a stream of this network, on which there were so many calls and faults.
    fn close(&mut self, stream: Self::Stream, counts: Counts)
        requires { HasAcceptedOut (told self.old) }
        ensures { told self.new ≡ option_map (accepted_back (record {
          traffic = Self.Stream.traffic stream;
          calls = counts.calls;
          faults = counts.faults.count;
          last_failed = counts.faults.last_failed;
        })) (told self.old) };
}

/// Calls on a connected socket.
pub trait Stream: Drop {
    /// What went over the socket, if it is reported.
    ghost traffic: { Self → Option Traffic };

    /// How many nanoseconds a read or a write waits for the peer at most, if it is reported.
    ghost patience: { Self → Option ℕ };

    /// Puts the next bytes at the front of `buf`, and returns how many. 0 for a `buf` with room means that the input
    /// has ended.
    fn read(&mut self, buf: &mut [u8]) -> io::Result<usize>
        ensures within { IfOk result (λ n. n ≤ length buf.new) }
        ensures bytes { Exchanged (traffic self.old) (traffic self.new) (take (count_moved result) buf.new) [] }
        ensures end { IfOk result (λ n. n ≡ 0 → 0 < length buf.new → IsAtEnd (traffic self.new)) }
        ensures patience { patience self.new ≡ patience self.old };

    /// Takes some of the bytes, from their front, and returns how many.
    fn write(&mut self, bytes: &[u8]) -> io::Result<usize>
        ensures within { IfOk result (λ n. n ≤ length bytes.now) }
        ensures bytes { Exchanged (traffic self.old) (traffic self.new)
            [] (take (count_moved result) bytes.now) }
        ensures patience { patience self.new ≡ patience self.old };

    /// Ends the output.
    fn end_output(&self) -> io::Result<()>;

    /// How long each further read waits.
    fn set_read_limit(&mut self, limit: Duration) -> io::Result<()>
        ensures traffic { traffic self.new ≡ traffic self.old }
        ensures patience { (most : ℕ) → as_nanos limit ≤ most → WaitsAtMost most (patience self.old)
            → WaitsAtMost most (patience self.new) };

    /// Reads bytes that nobody wants into `buf`, and returns how many. They are not reported.
    fn skip(&mut self, buf: &mut [u8]) -> io::Result<usize>
        ensures traffic { traffic self.new ≡ traffic self.old }
        ensures patience { patience self.new ≡ patience self.old };
}
