//! The status that the program ends with: that of a run of the top call, of the program's words.

ghost use Rattle.std.specs.Prelude.{◌≡◌, Ok, Err, [], map, string_bytes, MatchResult};
ghost use Rattle.std.specs.IoError.{error_kind};
ghost use Rattle.std.specs.Process.{exit_status};
ghost use Rattle.ats_console.specs.Stops.{text_of_stop};
ghost use Rattle.ats_console.specs.declared.stops.Stop.TheVariants.{Memory};
ghost use Rattle.ats_top.specs.Outside.{Outside};
ghost use Rattle.ats_top.specs.Run.{Prints};
ghost use Rattle.ats_main.specs.Ending.{EndsFor, EndsAs, begun};

use ats_base::{Caller, Door, Shelf, Sink, write_all};
use ats_outside::{FileShelf, Files, Net, Print, StdSink, TcpCaller, TcpDoor, Words};
use std::alloc::Global;
use std::io;
use std::process::{ExitCode, Termination};
use std::thread::Threads;

/// How the program ends. Only [`end`] makes one.
#[derive(Drop)]
pub struct Ending {
    code: ExitCode,
}

impl Termination for Ending {
    fn report<R: Eprint>(self, _rt: &R) -> ExitCode
        ensures { result ≡ self.code }
    {
        self.code
    }
}

/// The calls of std over which the objects of a run are made. The caller and the door have a network each.
#[derive(Drop)]
pub struct Calls<F, P, N, M> {
    pub files: F,
    pub print: P,
    pub calling: N,
    pub opening: M,
}

/// The objects of a run.
#[derive(Drop)]
pub struct Objects<S, K, C, D> {
    pub shelf: S,
    pub out: K,
    pub caller: C,
    pub door: D,
}

// What the top call does if memory runs out.
fn print_memory<K: Sink>(out: &mut K) -> u8
    ensures { Prints (K.told out.old) (K.told out.new) 6 [] (text_of_stop Memory) result }
{
    match write_all(out, b"memory\n") {
        Ok(()) => 6,
        Err(_) => 7,
    }
}

// Does what the words say, and returns the status of this run. If one of them is not UTF-8, they are the words of no
// command.
fn status_of<R: Threads + Sync, S: Shelf, K: Sink, C: Caller, D: Door>(
    rt: &R,
    alloc: Global,
    words: io::Result<Vec<String>>,
    shelf: &mut S,
    out: &mut K,
    caller: &mut C,
    door: &mut D,
) -> u8
    ensures { let before : Outside = record { shelf = S.told shelf.old; sink = K.told out.old; caller = C.told caller.old; door = D.told door.old } in
        let now : Outside = record { shelf = S.told shelf.new; sink = K.told out.new; caller = C.told caller.new; door = D.told door.new } in
        MatchResult words
        (λ said. EndsFor (Ok (map string_bytes said.items)) before now result)
        (λ fault. EndsFor (Err (error_kind fault)) before now result) }
{
    match words {
        Ok(words) => ats_top::run(rt, alloc, &words, shelf, out, caller, door),
        Err(fault) if fault.kind() == io::ErrorKind::OutOfMemory => print_memory(out),
        Err(_) => ats_top::run(rt, alloc, &[], shelf, out, caller, door),
    }
}

/// Does what the words say, over objects that it makes over these calls, and ends with the status of this run. The objects
/// come back as the run left them.
pub fn end<R: AllocGlobal + Threads + Sync, W: Words, F: Files, P: Print, N: Net, M: Net>(
    rt: &R,
    words: W,
    calls: Calls<F, P, N, M>,
) -> (
    Ending,
    Objects<FileShelf<F>, StdSink<P>, TcpCaller<N>, TcpDoor<M>>,
)
    ensures { EndsAs (W.returned words)
        (begun (record {
          files = F.content calls.files;
          asked = F.asked calls.files;
          printed = P.printed calls.print;
          calling = N.told calls.calling;
          opening = M.told calls.opening;
        }))
        (record {
          shelf = ⟦<FileShelf<F> as Shelf>⟧.told result.1.shelf;
          sink = ⟦<StdSink<P> as Sink>⟧.told result.1.out;
          caller = ⟦<TcpCaller<N> as Caller>⟧.told result.1.caller;
          door = ⟦<TcpDoor<M> as Door>⟧.told result.1.door;
        })
        (exit_status result.0.code) }
{
    let mut shelf = FileShelf::new(calls.files);
    let mut out = StdSink::new(calls.print);
    let mut caller = TcpCaller::new(calls.calling);
    let mut door = TcpDoor::new(calls.opening);
    let status = status_of(
        rt,
        rt.alloc(),
        words.words(),
        &mut shelf,
        &mut out,
        &mut caller,
        &mut door,
    );
    let ending = Ending {
        code: ExitCode::from(status),
    };
    let objects = Objects {
        shelf,
        out,
        caller,
        door,
    };
    (ending, objects)
}
