// PAPER. Document 01 as definitions: the nineteen calls and the answers are declared here, and specs/ says in the paper's words and
// order when a board can exist, what each call does, when it is refused, and what dispatch does. Nothing here runs.
#![tactic(auto)]

pub mod answer;
pub mod call;
