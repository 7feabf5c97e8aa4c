// CODE. The refusals that calls share: which message the running task holds, which task is meant. A refusal is answered by name and
// passed on; the paper's number of it is a definition (paper, Answers).
#![tactic(auto)]

pub mod refusals;
