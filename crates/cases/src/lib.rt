#![tactic(auto)]

// Document 01's proved cases as one table, and the wrong versions that the statements refuse. There is no code here, and it stands
// on definitions and their laws alone.
