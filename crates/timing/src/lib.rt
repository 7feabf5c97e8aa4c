// PAPER. Document 02, Ask 5, as definitions: specs/ says in the paper's words and order when start and tick are refused, what they do to a
// board and to the timer buffer that is lent with it, and what a history of calls, starts and ticks is. Nothing here runs.
#![tactic(auto)]
