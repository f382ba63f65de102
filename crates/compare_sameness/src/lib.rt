// What each answer of comparing means, in terms of the two meshes. Definitions and theorems, with no code to run.
#![tactic(auto)]
