//! Rules of a grammar that is read with one token ahead, as values: what a rule spells, before what it may end, and
//! how it is read. Each way to put rules together keeps the laws that make a reader exact: what is spelled is read
//! back, each answer has its cause, and a fault stands at the first token that cannot go on.
#![tactic(auto)]
