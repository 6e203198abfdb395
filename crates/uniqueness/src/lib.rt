#![tactic(auto)]

// One state of overlap, one decoration, one verdict on an operand, one outcome of a statement. There is no code here, and it stands on
// `meaning` alone.
