// The program: a plan on standard input, the lines of its run on standard output. Everything that matters is in `whole_run`.
#![tactic(auto)]

ghost use Rattle.std.specs.Prelude.{◌≤◌, length, IfOk};

use anyhow::{Context, Result};
use std::io;
use std::io::{Read, Write};
use whole_run::rooms::{TEXT_ROOM, plan_room, zeros};
use whole_run::running::run_plan;

// Reads until the room is full or the input ends, and says how many bytes at the room's start were read. The library has no such call without
// a heap: `read_exact` wants the room full, and `io::copy` promises nothing of how much of it was filled.
fn read_full(from: &mut impl Read, room: &mut [u8]) -> io::Result<usize>
    ensures { IfOk result (λ n. n ≤ length room.new) }
{
    let mut at = 0;
    while at < room.len() {
        let n = from.read(&mut room[at..])?;
        if n == 0 {
            break;
        }
        at += n;
    }
    Ok(at)
}

// Its rooms are arrays, since the program has no heap. An input that cannot be read, and lines that cannot be written, end it with an error that says so on standard error.
fn main(rt: HostRuntime) -> Result<()> {
    let mut plan = plan_room();
    let mut text = zeros::<u8, TEXT_ROOM>();
    let n = read_full(&mut rt.stdin(), &mut plan).context("standard input")?;
    let size = run_plan(&plan[..n], &mut text).context("room for the text")?;
    rt.stdout()
        .write_all(&text[..size])
        .context("standard output")
}
