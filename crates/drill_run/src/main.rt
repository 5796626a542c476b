// Runs the drill sheet on standard input and writes its listing. A sheet has at most 65,535 bytes here.
// What it can't take, it says on standard error, and writes no listing then.
#![tactic(auto)]

ghost use Rattle.std.specs.Prelude.{◌≤◌, length, IfOk};

use std::io;
use std::io::Read;

// Bytes of the buffer that a sheet is read into: one that fills it may go on.
const SHEET: usize = 65536;

// Room for the rows of as many lines of 41 bytes as a sheet can have.
const LISTING: usize = 131072;

// The proof of run does not close over arrays of this size: it would count their bytes. So a function makes each.
fn output() -> [u8; LISTING] {
    [0; LISTING]
}

fn work_area() -> [u8; drill::WORK] {
    [0; drill::WORK]
}

fn run(rt: &(impl Print + Eprint), sheet: &[u8]) -> io::Result<()> {
    let mut out = output();
    let mut work = work_area();
    let Ok(count) = drill::drill(sheet, &mut out, &mut work) else {
        return rt.eprint("drill_run: too many lines: a listing has at most 2,016 rows here\n");
    };
    if rt.write_all(wire::bytes::part(&out, 0, count)).is_err() {
        return rt.eprint("drill_run: the listing can't be written\n");
    }
    Ok(())
}

// Reads until the buffer is full or the input ends: how many bytes stand at its start then. A `while`, since what a read answers says how far it comes.
fn read_full(input: &mut impl Read, buffer: &mut [u8]) -> io::Result<usize>
    ensures { IfOk result (λ n. n ≤ length buffer.new) }
{
    let mut done = 0;
    while done < buffer.len() {
        match input.read(&mut buffer[done..])? {
            0 => break,
            n => done += n,
        }
    }
    Ok(done)
}

fn main(rt: HostRuntime) -> io::Result<()> {
    let mut sheet = [0; SHEET];
    let n = read_full(&mut rt.reader(), &mut sheet)?;
    if n == SHEET {
        return rt.eprint("drill_run: a sheet has at most 65,535 bytes here\n");
    }
    run(&rt, &sheet[..n])
}
