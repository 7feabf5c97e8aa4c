// BRIDGE. What code stores for start and for tick (timer_calls, specs/Stores) is their effect (timing, specs/Timing) on a board that passes
// with a buffer that is good for it: see proofs/. Nothing here runs.
#![tactic(auto)]
