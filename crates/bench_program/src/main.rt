// The bench program: decorated requests from standard input, and on standard output nineteen bytes for each. What is answered,
// kept and written stands in `bench_turn`; here it is read and written.
#![tactic(auto)]

ghost use Rattle.std.specs.Prelude.{◌≤◌, length, IfOk};
ghost use Rattle.std.specs.ControlFlow.{ForContinue};
ghost use Rattle.bench_program.specs.Runs.{LeftByTurn, Ready, Onward};

use bench_turn::{Run, turn};
use lent_calls::{DECORATED_REQUEST, REPLY};
use std::io::{self, Read, Stdin, Stdout, Write};
use std::ops::ControlFlow;

// The requests that the buffers have room for, so that both take less than 28 KiB.
const ROOM: usize = 512;

// The bytes of the input buffer.
const INPUT: usize = DECORATED_REQUEST * ROOM;

// The bytes of the output buffer: behind the replies there is room for the one that ends a run.
const OUTPUT: usize = REPLY * ROOM + REPLY;

// How often a read is tried that fails, since one that a signal interrupts fails too.
const TRIES: usize = 16;

// The bytes that arrived, which stand at the front of the input. None arrive once the input has ended, or where it fails.
fn arrive(stdin: &mut Stdin, input: &mut [u8]) -> usize
    ensures { result ≤ length input.new }
{
    // No `find_map`: the length of what its closure has written to, which bounds the answer, is not known after it.
    for _ in 0..TRIES {
        if let Ok(got) = stdin.read(input) {
            return got;
        }
    }
    0
}

// Writes what a turn left to be written, and nothing else.
fn write_left(stdout: &mut Stdout, written: &[u8]) -> io::Result<()>
    requires { LeftByTurn written.now }
{
    stdout.write_all(written)
}

// Reads what has arrived, and answers each request that is whole.
fn answer_some(
    run: Run,
    stdin: &mut Stdin,
    stdout: &mut Stdout,
    input: &mut [u8],
    output: &mut [u8],
) -> io::Result<ControlFlow<Run, Run>>
    requires { Ready run.held run.answered input.old output.old }
    ensures { IfOk result (λ left. ForContinue left (λ next. Onward run.held run.answered input.old next.held next.answered input.new)) }
{
    let arrived = arrive(stdin, &mut input[run.held..]);
    let end = turn(run, arrived, input, output);
    write_left(stdout, &output[..end.written])?;
    Ok(end.run)
}

// A failed write ends the run.
fn main(rt: HostRuntime) {
    let mut stdin = rt.stdin();
    let mut stdout = rt.stdout();
    let mut input = [0u8; INPUT];
    let mut output = [0u8; OUTPUT];
    let mut run = Run::START;
    while let Ok(ControlFlow::Continue(next)) = answer_some(
        run,
        &mut stdin,
        &mut stdout,
        &mut input,
        &mut output,
    ) {
        run = next;
    }
}
