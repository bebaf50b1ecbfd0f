//! Places a job: reads a job file from standard input, and writes its placement file, or the five numbers of the refusal, to
//! standard output.
#![tactic(auto)]

ghost use Rattle.std.specs.Prelude.{◌≤◌, IfOk};

use jobs::answer;
use std::io;
use std::io::{ErrorKind, Read, Write};

/// How many bytes of its input the program reads at most; no lawful job has as many.
const MOST_READ: usize = 4096;

/// Reads until the room is full or the input ends, and answers how many bytes were read. A pipe may give fewer at a time than are
/// asked for, and a signal may interrupt a read: both are gone on with.
// (no `Vec` and `read_to_end`: the room bounds every read, and reading needs no heap that it could be short of)
fn read_job<R: Read>(input: &mut R, room: &mut [u8; MOST_READ]) -> io::Result<usize>
    ensures { IfOk result (λ n. n ≤ 4096) }
{
    let mut held = 0;
    for _ in 0..u64::MAX {
        if held == MOST_READ {
            break;
        }
        match input.read(&mut room[held..]) {
            Ok(0) => break,
            Ok(more) => held += more,
            Err(error) if error.kind() == ErrorKind::Interrupted => {}
            Err(error) => return Err(error),
        }
    }
    Ok(held)
}

fn main(rt: HostRuntime) -> anyhow::Result<()> {
    let mut room = [0; MOST_READ];
    let held = read_job(&mut rt.stdin(), &mut room)?;
    rt.stdout().write_all(&answer(rt.alloc(), &room[..held])?)?;
    Ok(())
}
