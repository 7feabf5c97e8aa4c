// BRIDGE. A board without DEBUG and MROB: what is read of it is what is read of the board, and what a call writes to it is what it writes to
// the board, but for these two bits. What is said of it is specs/Bare.
#![tactic(auto)]
