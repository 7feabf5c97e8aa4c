// CODE. What C hands over and is handed: a call from its kind and words, and an answer as one word.
#![tactic(auto)]

pub mod asked;
pub mod pack;
