// What reading a stream gives: every item, every byte once, then End, and each answer exactly when it is due. The crate
// has theorems and no code.
#![tactic(auto)]
