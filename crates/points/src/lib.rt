#![tactic(auto)]

// What the point functions make of sets: the true bounds of the results. There is no code here, and it stands on `meaning` alone.
