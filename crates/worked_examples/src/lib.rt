// Theorems alone: the whole output for the customer's sample record, computed from its bytes.
#![tactic(auto)]
