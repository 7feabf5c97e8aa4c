// DATA. The records of a board read and written on lent bytes, each by its number (bytes), or by the word that means it
// (by_word). What each function does is said by the definitions of board, for a board of any size. Readers and writers ask that
// the bytes hold a whole board, which is tested once before (DECISIONS, D8).
#![tactic(auto)]

pub mod by_word;
pub mod bytes;
