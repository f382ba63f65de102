// Recordings written like job files, each record with the answer that drawing gave. Definitions and theorems, with no code to run.
#![tactic(auto)]
