// BRIDGE. From bytes with links to queues as lists: what R1 to R7 say of a board that passes, in words that need no walk and no test. The
// promises about calls and histories rest on this relation and on nothing of the check's algorithm.
#![tactic(auto)]
