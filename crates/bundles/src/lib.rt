// Bundles and listings: the bytes that the program reads, and those that it writes.
#![tactic(auto)]

pub mod input; // input.rt: the bytes that a program is given
pub mod read; // read.rt: the public call `read_bundle`
mod numerals; // numerals.rt: decimal and hexadecimal numbers as text
pub mod listing; // listing.rt: the public call `listing`
