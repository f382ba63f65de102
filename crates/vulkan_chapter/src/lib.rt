// The Vulkan specification's chapter on tessellation as definitions, and that every drawn patch meets it. Definitions and theorems, with no
// code to run.
#![tactic(auto)]
