// The last one decides: each value that is shown is that of the last chunk that sets it since the step was regained.
// The crate has theorems and no code.
#![tactic(auto)]
