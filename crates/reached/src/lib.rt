// PROMISE. Document 02, Ask 4: a board passes the check exactly if calls from the fresh board end in its very bytes, and which calls do. What
// is promised is specs/Claims; the calls are those of past.
#![tactic(auto)]
