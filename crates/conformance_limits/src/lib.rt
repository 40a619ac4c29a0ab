// Document 01's limits in numerals, as the calls show them: definitions and theorems alone, no code.
#![tactic(auto)]
