// The points of a triangle patch as words, three per point.
#![tactic(auto)]

pub mod triangle;
