// DATA. A board's parts by value: numbers of tasks and messages, the status byte, PRIO, task and message records, and the place
// byte as an enum. The layout is document 01's, 'What the board holds'; what each function does is said by the definitions of
// specs/, for a board of any size. The crate lent reads and writes them on bytes.
#![tactic(auto)]

pub mod numbers;
pub mod places;
pub mod priority;
pub mod records;
pub mod status;
