// BRIDGE. What code stores for a call (stores) is the effect that document 01 says (paper, Outcomes), on every board that passes: the two
// words of a queue's move are the whole queue relinked, and the bytes that were not written are those of all other records.
#![tactic(auto)]
