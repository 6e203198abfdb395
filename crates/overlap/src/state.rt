// The states of overlap.

// The overlapping state between the intervals x = [a, b] and y = [c, d].
//
// `x` relative to `y`:
//
//                       y
//                   c       d
//                   •———————•
//      ┌─    a   b  :       :
//      │   B •———•  :       :
//      │      M •———•       :                               y
//      │        O •———•     :                              c=d
//      │          S •———•   :                               •
//      │          S •       :                  ┌─    a   b  :
//      │         Cb : •———• :                  │   B •———•  :
//      │            :   •———• F                │            • E
//    x │            :       • F              x │        •———• Fb
//      │            •———————• E                │          •———• C
//      │          •—————————• Fb               │            •———• Sb
//      │          •———————————• C              │            :  •———• A
//      │            •—————————• Sb             └─           :  a   b
//      │            :     •———• Ob                          •
//      │            :       •———• Mb                       c=d
//      │            :       :  •———• A
//      └─           :       :  a   b
//                   •———————•
//                   c       d
#[derive(Clone, Copy, PartialEq, Eq)]
pub enum Overlap {
    // Both `x` and `y` are empty.
    BothEmpty,
    // `x` is empty while `y` is not.
    FirstEmpty,
    // `y` is empty while `x` is not.
    SecondEmpty,
    // b < c
    Before,
    // a < b ∧ b = c ∧ c < d
    Meets,
    // a < c ∧ c < b ∧ b < d
    Overlaps,
    // a = c ∧ b < d
    Starts,
    // c < a ∧ b < d
    ContainedBy,
    // c < a ∧ b = d
    Finishes,
    // a = c ∧ b = d
    Equals,
    // a < c ∧ b = d
    FinishedBy,
    // a < c ∧ d < b
    Contains,
    // a = c ∧ d < b
    StartedBy,
    // c < a ∧ a < d ∧ d < b
    OverlappedBy,
    // c < d ∧ a = d ∧ a < b
    MetBy,
    // d < a
    After,
}
