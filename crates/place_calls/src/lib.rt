// CODE. 'Place m at r', and the four calls that place: send, resend, forward and return. Each tests the refusals of its row in the paper's
// order, and only then writes; what follows is the wait, or dispatch alone.
#![tactic(auto)]

pub mod place;
pub mod sends;
