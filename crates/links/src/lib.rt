// THEORY. Queues linked by number: what links visit, where one goes in, what taking one out leaves. It serves the task queue and
// the queues of messages alike and knows of no bytes, so there is no code here: see specs/Queue.antt, specs/Chain.antt and the laws.
#![tactic(auto)]
