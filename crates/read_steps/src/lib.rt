//! The words in which the readers of texts say what they answer: steps that give a thing or a fault, one behind the other, things
//! read in turn, and an answer that is the wanted one or want of memory. There is no code here, only definitions and what
//! follows from them.
#![tactic(auto)]
