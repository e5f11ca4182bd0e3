// How large the memory is that the program has, all of it on its stack.
use book::HEADER;
use rules::{InnerTokens, InnerVertices, OuterTokens, OuterVertices, Resources};
use sets::Users;

// The bytes of the longest book: RULES 9.4.
pub const LONGEST: usize = HEADER
    + Users::WIDTH
    + InnerVertices::LIMIT as usize * InnerVertices::WIDTH
    + InnerTokens::LIMIT as usize * InnerTokens::WIDTH
    + OuterVertices::LIMIT as usize * OuterVertices::WIDTH
    + OuterTokens::LIMIT as usize * OuterTokens::WIDTH
    + Resources::LIMIT as usize * Resources::WIDTH;

// For the longest book and one byte more, which tells that an input is longer than any book.
pub const INPUT: usize = LONGEST + 1;

// For the bytes behind those, which are only counted.
pub const SPARE: usize = 4096;

// More than any answer has.
pub const OUTPUT: usize = 512;
