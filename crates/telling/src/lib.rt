// PROGRAMS. What the programs that a person reads share: reading bytes, the walks along the links of a board, what the check
// found, a call, the state of a task, the totals of a board and a timer buffer in words, and printing in columns. A printing
// function is handed what it writes to, and ends with the error where that fails. Its contract says how many columns it takes
// else, which a table rests on.
#![tactic(auto)]

pub mod call;
pub mod finding;
pub mod input;
pub mod order;
pub mod output;
pub mod print;
pub mod state;
pub mod timer_buffer;
pub mod totals;
pub mod walks;

// Named here, since std's `io` has the crate's name elsewhere.
use io::{decimal as digits_of, read_full as read_descriptor};
