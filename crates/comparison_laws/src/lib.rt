#![tactic(auto)]

// What the quantifiers of comparisons say of the ends of intervals, and what follows from them. There is no code here, and it stands on
// `meaning` alone.
