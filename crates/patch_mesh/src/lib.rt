// What drawing a patch gives, and what holds for it. Definitions and theorems, with no code to run.
#![tactic(auto)]
