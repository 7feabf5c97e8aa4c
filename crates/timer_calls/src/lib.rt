// CODE. Start and tick on a board that passes and on a timer buffer that is good for it (document 02, Ask 5): what each does, and dispatch
// behind it.
#![tactic(auto)]

pub mod start;
pub mod tick;
