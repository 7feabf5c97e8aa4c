// DATA. The timer buffer (document 02, Ask 5): an entry by value, and now and the sixteen entries on lent bytes. What the bytes
// are is a definition (specs/Timer).
#![tactic(auto)]

pub mod bytes;
pub mod entry;
