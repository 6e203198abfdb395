// Judges stored cases of the three roundings, which it reads from standard input, and writes how many are right.
#![tactic(auto)]

use rounding_runs::cases::{CASE, Tally, count, first_wrong};
use rounding_runs::roundings::Operation;
use std::io::Stdin;
use whole_reads::read_full;

// Bytes that one turn reads: 2,600 whole cases.
const CHUNK: usize = 65000;

const NO_CASES: Tally = Tally { right: 0, wrong: 0 };

// What was found so far.
#[derive(Clone, Copy)]
struct Found {
    sums: Tally,
    products: Tally,
    quotients: Tally,
    // How many whole cases there were. No input has so many that this sum wraps.
    cases: usize,
    // The number of the first case that is not right, counted from 0.
    first_wrong: Option<usize>,
}

impl Found {
    const NOTHING: Found = Found {
        sums: NO_CASES,
        products: NO_CASES,
        quotients: NO_CASES,
        cases: 0,
        first_wrong: None,
    };

    // The number of the first case in the next bytes that is not right. A last piece that is no whole case is found wrong.
    fn wrong_in(self, bytes: &[u8]) -> Option<usize> {
        let right = first_wrong(bytes);
        (right * CASE < bytes.len()).then_some(self.cases.wrapping_add(right))
    }

    // With the cases of the next bytes. Once a case is found wrong, no later one is looked for.
    fn and(self, bytes: &[u8]) -> Found {
        Found {
            sums: self.sums + count(bytes, Operation::Sum),
            products: self.products + count(bytes, Operation::Product),
            quotients: self.quotients + count(bytes, Operation::Quotient),
            cases: self.cases.wrapping_add(bytes.len() / CASE),
            first_wrong: self.first_wrong.or_else(|| self.wrong_in(bytes)),
        }
    }
}

// All of the input. A proved loop has to end, and nothing says that the input does, so the turns are counted, up to a number
// that no run comes to.
fn judge_all(input: &mut Stdin) -> Found {
    let mut found = Found::NOTHING;
    for _ in 0..u64::MAX {
        let mut buffer = [0; CHUNK];
        let length = read_full(input, &mut buffer);
        found = found.and(&buffer[..length]);
        if length < CHUNK {
            break;
        }
    }
    found
}

// A line that cannot be written is passed over.
fn write_tally(rt: &HostRuntime, name: &str, t: Tally) {
    let _ = println!(rt; "{name}: {} right, {} wrong", t.right, t.wrong);
}

fn main(rt: HostRuntime) {
    let found = judge_all(&mut rt.stdin());
    write_tally(&rt, "sum", found.sums);
    write_tally(&rt, "product", found.products);
    write_tally(&rt, "quotient", found.quotients);
    if let Some(index) = found.first_wrong {
        let _ = println!(rt; "first wrong case: {index}");
    }
}
