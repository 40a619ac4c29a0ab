// What W1 says of playing a capture, claimed in the paper's own numerals: definitions and theorems alone, no code.
#![tactic(auto)]
