// Document 01's bench sheet as one claim, proved by computation: definitions and theorems alone, no code.
#![tactic(auto)]
