// What holds over whole lists of calls: statements and theorems alone, no code.
#![tactic(auto)]
