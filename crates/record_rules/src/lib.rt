// CODE. What one record must be, by value: the part of R2, R4 and R6 that needs no board. Each answer is proved to be the definition's
// (paper, Rules).
#![tactic(auto)]

pub mod messages;
pub mod tasks;
