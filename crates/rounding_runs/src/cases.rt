// Stored cases: which are right, and how many.
ghost use Rattle.std.specs.Prelude.{◌*◌, ◌/◌, ◌≡◌, length};
ghost use Rattle.truth.specs.Answers.{Answers};
ghost use Rattle.rounding_runs.specs.Cases.{Counted, FirstWrong, Right, RightCase, Says, SomeRightCase, Together, WrongCase, number_of};

use crate::roundings::{Operation, rounded, takes};
use crate::words::word;
use std::ops::Add;

// Bytes of a case: the operation's number, and three big-endian words.
pub const CASE: usize = 25;

// Where the first operand starts.
const FIRST: usize = 1;

// Where the second operand starts.
const SECOND: usize = 9;

// Where the answer starts.
const ANSWER: usize = 17;

// How many cases of one operation are right, and how many are not.
#[derive(Clone, Copy)]
pub struct Tally {
    pub right: usize,
    pub wrong: usize,
}

// The counts of both, which wrap where a `usize` has no room for them.
impl Add for Tally {
    type Output = Tally;

    ghost add_gives = { Together };

    fn add(self, other: Tally) -> Tally {
        Tally {
            right: self.right.wrapping_add(other.right),
            wrong: self.wrong.wrapping_add(other.wrong),
        }
    }
}

// Document 01's number of the operation.
fn number(o: Operation) -> u8
    ensures { result ≡ number_of o }
{
    o as u8
}

// Whether the answer is the exact result rounded upward.
fn right(o: Operation, a: u64, b: u64, answer: u64) -> bool
    ensures { Answers (Right o a b answer) result }
{
    takes(o, a, b) && rounded(o, a, b) == answer
}

// Whether what the case says of the operation is right.
fn says(case: &[u8; CASE], o: Operation) -> bool
    ensures { Answers (Says case.now o 0) result }
{
    right(o, word(case, FIRST), word(case, SECOND), word(case, ANSWER))
}

// Whether the case is right.
fn is_right(case: &[u8; CASE]) -> bool
    ensures { Answers (SomeRightCase case.now 0) result }
{
    match Operation::try_from(case[0]) {
        Ok(o) => says(case, o),
        Err(_) => false,
    }
}

// The cases of one operation, counted.
pub fn count(s: &[u8], o: Operation) -> Tally
    ensures right { Counted (λ k. RightCase s.now o (k * 25)) (length s.now / 25) result.right }
    ensures wrong { Counted (λ k. WrongCase s.now o (k * 25)) (length s.now / 25) result.wrong }
{
    let (cases, _) = s.as_chunks::<CASE>();
    let of = number(o);
    let mut right = 0;
    let mut wrong = 0;
    for case in cases {
        if case[0] == of {
            if says(case, o) {
                right += 1;
            } else {
                wrong += 1;
            }
        }
    }
    Tally { right, wrong }
}

// The number of the first case that is not right, or of all cases if there is none.
pub fn first_wrong(s: &[u8]) -> usize
    ensures { FirstWrong s.now result }
{
    let (cases, _) = s.as_chunks::<CASE>();
    cases
        .iter()
        .position(|case| !is_right(case))
        .unwrap_or(cases.len())
}
