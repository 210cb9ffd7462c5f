// What is said of values, kind by kind: which may be written and with what number the others are refused, and that what
// is accepted is read back as it was given. The crate has theorems and no code.
#![tactic(auto)]
