// How a turn of a run closes.
ghost use Rattle.std.specs.Prelude.{◌≡◌, ◌≤◌};
ghost use Rattle.bench_run.specs.Limit.{most};
ghost use Rattle.bench_run.specs.Turn.{Closes, leftover_number};

use crate::limit::MOST;

// Bytes that end a run and are no request, each with document 01's number for it.
#[derive(Clone, Copy)]
pub enum Leftover {
    // A last piece, which is no whole request.
    Piece = 1,
    // Bytes after the last request that a run answers.
    Excess = 7,
}

impl Leftover {
    // Document 01's number.
    pub fn number(self) -> u8
        ensures { result ≡ leftover_number self }
    {
        self as u8
    }
}

#[derive(Clone, Copy)]
pub enum Ending {
    // Another turn follows.
    Onward,
    // The run ends with its last request.
    Whole,
    // The run ends with a reply to these bytes.
    Last(Leftover),
}

// How a turn closes, by the bytes that arrived, none where the input has ended, the bytes that it keeps, and the requests that
// are answered by then.
#[tactic(auto, using(crate::specs::Turn::goes_on, crate::specs::Turn::is_whole, crate::specs::Turn::has_piece, crate::specs::Turn::has_excess))]
pub fn closing(arrived: usize, kept: usize, answered: usize) -> Ending
    requires { answered ≤ most }
    ensures { Closes arrived kept answered result }
{
    if kept == 0 {
        if arrived == 0 {
            return Ending::Whole;
        }
        return Ending::Onward;
    }
    if answered == MOST {
        return Ending::Last(Leftover::Excess);
    }
    if arrived == 0 {
        return Ending::Last(Leftover::Piece);
    }
    Ending::Onward
}
