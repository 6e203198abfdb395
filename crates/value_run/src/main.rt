// Calls by value: reads records from standard input, makes the call that each asks for, and writes a reply for each.
//
// A record is a function's number and two operands of seventeen bytes, the form of a decorated request: two patterns, big
// endian, and a decoration's byte. The operands are passed as they are, so that the function that is called has to judge them.
//
//  Numbers    | Functions
// ------------+---------------------------------------------------------------------------------------
//    1 to  25 | decorated operations, under document 01's numbers
//   33 to  57 | bare operations, under document 01's numbers and 32
//   64 to  75 | functions that take a bare interval (crates/value_functions/src/bare.rt)
//   96 to 108 | functions that take a decorated interval (crates/value_functions/src/decorated.rt)
//  128 to 135 | functions that take bytes, and constants (crates/value_functions/src/from_bytes.rt)
//  161 to 185 | decorated operations by name, under document 01's numbers and 160
//  193 to 217 | bare operations by name, under document 01's numbers and 192
//  225 to 229 | arithmetic operations that report exactness, under document 01's numbers and 224
//
// A reply is nineteen bytes: number, place and answer (crates/value_records/src/replies.rt). Number 3 says that no function has the
// record's number, and 4 with a place that an operand of which the function takes the decoration has a byte that is none. A last
// piece that is no whole record gets number 1.
#![tactic(auto)]

use dec_interval::DecInterval;
use interval::Interval;
use lent_calls::{DECORATED_REQUEST, FIRST_AT};
use lent_intervals::DECORATED;
use refusals::Refusal;
use std::io::{Stdin, Stdout, Write};
use value_records::replies::{Answer, written};
use value_records::values::{operand_at, operand_of};
use whole_reads::read_full;

// The bytes of a record.
const RECORD: usize = DECORATED_REQUEST;

// Where the second operand stands in a record.
const SECOND_AT: usize = FIRST_AT + DECORATED;

// How many numbers a group of functions has, and the groups in order.
const GROUP: u8 = 32;

const DECORATED_OPERATIONS: u8 = 0;

const BARE_OPERATIONS: u8 = 1;

const BARE_FUNCTIONS: u8 = 2;

const DECORATED_FUNCTIONS: u8 = 3;

const FROM_BYTES: u8 = 4;

const DECORATED_BY_NAME: u8 = 5;

const BARE_BY_NAME: u8 = 6;

const EXACT_OPERATIONS: u8 = 7;

// The answer to a record with this number and these operands.
fn answer(number: u8, first: [u8; DECORATED], second: [u8; DECORATED]) -> Result<Answer, Refusal> {
    let x = operand_of(first);
    let y = operand_of(second);
    let operation = number % GROUP;
    match number / GROUP {
        DECORATED_OPERATIONS => value_operations::call::<DecInterval>(operation, false, x, y),
        BARE_OPERATIONS => value_operations::call::<Interval>(operation, false, x, y),
        BARE_FUNCTIONS => value_functions::bare::call(number, x),
        DECORATED_FUNCTIONS => value_functions::decorated::call(number, x),
        FROM_BYTES => value_functions::from_bytes::call(number, first),
        DECORATED_BY_NAME => value_operations::call::<DecInterval>(operation, true, x, y),
        BARE_BY_NAME => value_operations::call::<Interval>(operation, true, x, y),
        EXACT_OPERATIONS => value_exact::call(operation, x, y),
        _ => Err(Refusal::UnknownOperation),
    }
}

// Answers the next record, and says whether there was one.
fn answer_next(stdin: &mut Stdin, stdout: &mut Stdout) -> bool {
    let mut input = [0u8; RECORD];
    let arrived = read_full(stdin, &mut input);
    if arrived == 0 {
        return false;
    }
    if arrived < RECORD {
        let reply = written(Err(Refusal::WrongLength));
        let _ = stdout.write_all(&reply);
        return false;
    }
    let first = operand_at(&input, FIRST_AT);
    let second = operand_at(&input, SECOND_AT);
    let reply = written(answer(input[0], first, second));
    stdout.write_all(&reply).is_ok()
}

// A proved loop has to end, and nothing says that the input does, so the records are counted down from a number that no run
// uses up.
fn main(rt: HostRuntime) {
    let mut stdin = rt.stdin();
    let mut stdout = rt.stdout();
    for _ in 0..u64::MAX {
        if !answer_next(&mut stdin, &mut stdout) {
            return;
        }
    }
}
