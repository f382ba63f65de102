// Answers as a number with values, the contract of an operation that writes a list, and the theorem that a call which reports its
// operation's answer by number and words gives each answer exactly if it is right. Definitions and theorems, with no code to run.
#![tactic(auto)]
