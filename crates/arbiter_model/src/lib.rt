// Document 01's waiting book and what is claimed of it: definitions and theorems alone, no code.
#![tactic(auto)]
