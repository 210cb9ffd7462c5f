// One ending, whatever came before it: from the first chunk that a searching reader accepts, the items, the cursors and
// the samples are those that the ending gives alone. The crate has theorems and no code.
#![tactic(auto)]
