// The request program's lines: what a line asks, and the text of an answer. Everything here is on slices; the program reads and prints.
#![tactic(auto)]

pub mod answer;
pub mod request;
