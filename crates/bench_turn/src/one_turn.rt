// One turn of a run.
ghost use Rattle.std.specs.Prelude.{◌+◌};
ghost use Rattle.bench_turn.specs.Buffers.{ClosingRoom, ClosedBy, TurnRoom, TurnOn};

use crate::chunk::answer_chunk;
use bench_run::{Ending, closing, complete, keep_rest, last_reply};
use lent_calls::{DECORATED_REQUEST, REPLY};
use std::ops::ControlFlow;

// How far a run has come: the bytes at the front of the input buffer that are not answered yet, and the requests that are.
#[derive(Clone, Copy)]
pub struct Run {
    pub held: usize,
    pub answered: usize,
}

impl Run {
    pub const START: Run = Run {
        held: 0,
        answered: 0,
    };
}

// What a turn leaves: the bytes at the front of the output buffer that are to be written, and how far the run has come. It goes on
// with another turn, or it has ended.
#[derive(Clone, Copy)]
pub struct TurnEnd {
    pub written: usize,
    pub run: ControlFlow<Run, Run>,
}

// Closes a turn: behind the replies stands the one that ends the run, if it ends so.
fn close(arrived: usize, run: Run, written: usize, output: &mut [u8]) -> TurnEnd
    requires { ClosingRoom run.answered written output.old }
    ensures { ClosedBy arrived run written output.old result output.new }
{
    match closing(arrived, run.held, run.answered) {
        Ending::Onward => TurnEnd {
            written,
            run: ControlFlow::Continue(run),
        },
        Ending::Whole => TurnEnd {
            written,
            run: ControlFlow::Break(run),
        },
        Ending::Last(leftover) => {
            output[written..written + REPLY].copy_from_slice(&last_reply(leftover.number()));
            TurnEnd {
                written: written + REPLY,
                run: ControlFlow::Break(run),
            }
        }
    }
}

// A turn of a run that holds some bytes at the front of the input, behind which others arrived: none where the input has ended.
// How many arrived is passed beside the buffer, since `TurnOn` speaks of the whole of it.
pub fn turn(run: Run, arrived: usize, input: &mut [u8], output: &mut [u8]) -> TurnEnd
    requires { TurnRoom run.held arrived run.answered input.old output.old }
    ensures { TurnOn run.held arrived run.answered input.old output.old result input.new output.new }
{
    let filled = run.held + arrived;
    let count = complete(filled, run.answered);
    let taken = DECORATED_REQUEST * count;
    answer_chunk(&input[..taken], output);
    let rest = filled - taken;
    keep_rest(input, taken, rest);
    let left = Run {
        held: rest,
        answered: run.answered + count,
    };
    close(arrived, left, REPLY * count, output)
}
