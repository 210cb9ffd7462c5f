// What is written is copied back: theorems over the writer and the samples, and no code.
#![tactic(auto)]
