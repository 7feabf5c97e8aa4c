// BRIDGE. What start and tick keep, beside the nineteen calls, and that a started message comes back at exactly its tick: see
// specs/Claims. Nothing here runs.
#![tactic(auto)]
