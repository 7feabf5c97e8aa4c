// BRIDGE. What every call keeps: the body of a call on a board that passes leaves R1 to R6, so dispatch always has a message to deliver,
// and after dispatch the board passes again. Said of the definitions, so it holds of any code that meets them.
#![tactic(auto)]
