// What every operation means: definitions from document 01, IEEE 754 and IEEE 1788-2015, and their laws. There is no code here.
// It stands on formats and values (`patterns`).
#![tactic(auto)]
