//! What a tree means, what a search answers, the layout of programs and the machine: definitions alone, over plain values.
#![tactic(auto)]
