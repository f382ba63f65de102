// The customer's third demand for what the drawing operations wrote, sentence by sentence. Definitions and theorems, with no code to run.
#![tactic(auto)]
