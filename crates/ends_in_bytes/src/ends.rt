// The bytes of two ends, taken apart and put together. Ends that were read are not judged yet.
ghost use Rattle.std.specs.Prelude.{◌++◌, ◌≡◌, ◌+◌, ◌≤◌, length, take, drop};
ghost use Rattle.meaning.specs.Bytes.{read_pair, write_pair};
ghost use Rattle.end_pairs.specs.EndPairMeaning.{pair_of};
ghost use Rattle.ends_in_bytes.specs.ByteOrderMeaning.{order_of};

use crate::digits::{ByteOrder, read_end, write_end};
use end_pairs::EndPair;

// Where the bytes of the upper end start.
const UPPER_AT: usize = 8;

// The eight bytes from a position on.
fn eight_at(s: &[u8], start: usize) -> [u8; 8]
    requires { start + 8 ≤ length s.now }
    ensures { result ≡ take 8 (drop start s.now) }
{
    *s[start..].first_chunk().unwrap()
}

// Puts eight bytes at a position. No `as_chunks_mut`: it does not say what the slice ends as.
fn put_eight(s: &mut [u8], start: usize, d: [u8; 8])
    requires { start + 8 ≤ length s.old }
    ensures { s.new ≡ take start s.old ++ (d ++ drop (start + 8) s.old) }
{
    s[start..start + 8].copy_from_slice(&d);
}

// The two ends that the sixteen bytes from a position on stand for.
pub fn read_ends(s: &[u8], start: usize, order: ByteOrder) -> EndPair
    requires { start + 16 ≤ length s.now }
    ensures { pair_of result ≡ read_pair (order_of order) (drop start s.now) }
{
    EndPair {
        a: read_end(eight_at(s, start), order),
        b: read_end(eight_at(s, start + UPPER_AT), order),
    }
}

// Puts the sixteen bytes of two ends first.
pub fn write_ends(s: &mut [u8], x: EndPair, order: ByteOrder)
    requires { 16 ≤ length s.old }
    ensures { s.new ≡ write_pair (order_of order) (pair_of x) ++ drop 16 s.old }
{
    put_eight(s, 0, write_end(x.a, order));
    put_eight(s, UPPER_AT, write_end(x.b, order));
}
