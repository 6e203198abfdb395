// The state of two intervals with members, by the keys of their ends.
ghost use Rattle.std.specs.Prelude.{◌≡◌, ◌<◌};
ghost use Rattle.meaning.specs.Overlap.{Conditions};
ghost use Rattle.overlap.specs.OverlapMeaning.{state_of};

use crate::state::Overlap;
use std::cmp::Ordering;

// The state by how the ends of [a, b] and [c, d] compare:
//
//     |  aRc  |  aRd  |  bRc  |  bRd
//     | < = > | < = > | < = > | < = >
// ----+-------+-------+-------+-------
//   B | x     | x     | x     | x
//   M | x     | x     |   x   | x
//   O | x     | x     |     x | x
//   S |   x   | x     |   ? ? | x
//  Cb |     x | x     |     x | x
//   F |     x | ? ?   |     x |   x
//   E |   x   | ? ?   |   ? ? |   x
//  Fb | x     | x     |   ? ? |   x
//   C | x     | x     |     x |     x
//  Sb |   x   | ? ?   |     x |     x
//  Ob |     x | x     |     x |     x
//  Mb |     x |   x   |     x |     x
//   A |     x |     x |     x |     x
pub fn compare(a: u64, b: u64, c: u64, d: u64) -> Overlap
    ensures { Conditions ◌<◌ ◌≡◌ (state_of result) a b c d }
{
    match (b.cmp(&d), a.cmp(&c)) {
        (Ordering::Less, Ordering::Less) => match b.cmp(&c) {
            Ordering::Less => Overlap::Before,
            Ordering::Equal => Overlap::Meets,
            Ordering::Greater => Overlap::Overlaps,
        },
        (Ordering::Less, Ordering::Equal) => Overlap::Starts,
        (Ordering::Less, Ordering::Greater) => Overlap::ContainedBy,
        (Ordering::Equal, Ordering::Less) => Overlap::FinishedBy,
        (Ordering::Equal, Ordering::Equal) => Overlap::Equals,
        (Ordering::Equal, Ordering::Greater) => Overlap::Finishes,
        (Ordering::Greater, Ordering::Less) => Overlap::Contains,
        (Ordering::Greater, Ordering::Equal) => Overlap::StartedBy,
        (Ordering::Greater, Ordering::Greater) => match a.cmp(&d) {
            Ordering::Less => Overlap::OverlappedBy,
            Ordering::Equal => Overlap::MetBy,
            Ordering::Greater => Overlap::After,
        },
    }
}
