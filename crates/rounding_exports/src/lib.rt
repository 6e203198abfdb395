// The three roundings over columns of patterns, for the benchmark's host to call.
#![tactic(auto)]

ghost use Rattle.std.specs.Prelude.{◌≡◌, length};
ghost use Rattle.truth.specs.Answers.{Answers};
ghost use Rattle.refusals.specs.RefusalMeaning.{said};
ghost use Rattle.rounding_exports.specs.Columns.{Filled, FilledOrRefused, TakesRows};

use refusals::{Fault, Place, Refusal};
use rounding_runs::roundings::{Operation, rounded, takes};

// Whether the operation takes the operands of every row. None is skipped: a branch in each row would cost more.
fn takes_rows(o: Operation, a: &[u64], b: &[u64]) -> bool
    requires { length b.now ≡ length a.now }
    ensures { Answers (TakesRows o a.now b.now) result }
{
    let mut all = true;
    // Counted, and not over a zip, which LLVM does not vectorize: subnormal products took 1.28 times plain Rust's time with it, where 1.2 is the bar.
    for k in 0..a.len() {
        all &= takes(o, a[k], b[k]);
    }
    all
}

// Rounds the result of every row.
fn fill(o: Operation, a: &[u64], b: &[u64], out: &mut [u64])
    requires { (length b.now ≡ length a.now) × (length out.old ≡ length a.now) × TakesRows o a.now b.now }
    ensures { Filled o a.now b.now out.new }
{
    // Counted, since nothing is known of what is written through `iter_mut` under an adapter.
    for k in 0..a.len() {
        out[k] = rounded(o, a[k], b[k]);
    }
}

// Judges all rows before the first is written.
fn fill_or_refuse(o: Operation, a: &[u64], b: &[u64], out: &mut [u64]) -> Result<(), Refusal>
    ensures { FilledOrRefused o a.now b.now out.old (said result).number out.new }
{
    if b.len() != a.len() {
        return Err(Refusal::WrongLength);
    }
    if out.len() != a.len() {
        return Err(Refusal::WrongRoom);
    }
    if !takes_rows(o, a, b) {
        return Err(Refusal::Operand(Place::First, Fault::BadEnds));
    }
    fill(o, a, b, out);
    Ok(())
}

// Document 01's number of a refusal, and 0 of none. C takes a number.
fn number(answer: Result<(), Refusal>) -> u32
    ensures { result ≡ (said answer).number }
{
    match answer {
        Ok(()) => 0,
        Err(refusal) => u32::from(refusal.number()),
    }
}

// The sum of each row.
#[unsafe(no_mangle)]
pub extern "C" fn rounding_exports_sums(a: &[u64], b: &[u64], out: &mut [u64]) -> u32
    ensures { FilledOrRefused Operation.Sum a.now b.now out.old result out.new }
{
    number(fill_or_refuse(Operation::Sum, a, b, out))
}

// The product of each row.
#[unsafe(no_mangle)]
pub extern "C" fn rounding_exports_products(a: &[u64], b: &[u64], out: &mut [u64]) -> u32
    ensures { FilledOrRefused Operation.Product a.now b.now out.old result out.new }
{
    number(fill_or_refuse(Operation::Product, a, b, out))
}

// The quotient of each row.
#[unsafe(no_mangle)]
pub extern "C" fn rounding_exports_quotients(a: &[u64], b: &[u64], out: &mut [u64]) -> u32
    ensures { FilledOrRefused Operation.Quotient a.now b.now out.old result out.new }
{
    number(fill_or_refuse(Operation::Quotient, a, b, out))
}
