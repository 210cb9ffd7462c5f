// A recording that still grows: what stays where more bytes are appended, and that reading it part by part gives the
// chunks of the whole. The crate has theorems and no code.
#![tactic(auto)]
