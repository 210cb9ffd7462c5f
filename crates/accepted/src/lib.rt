// What the writer accepts is read back, and what the reader takes is written back: theorems over both, and no code.
#![tactic(auto)]
