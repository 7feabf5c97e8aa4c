// CODE. R3: the task queue is in order, and which task is its first ready one. Each answer is proved to be the definition's (paper, Rules).
#![tactic(auto)]

pub mod tasks;
pub mod who;
