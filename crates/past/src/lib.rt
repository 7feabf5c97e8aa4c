// BRIDGE. A past of a board: calls that lead to it from the fresh board, found by going back (specs/Past). That they do so for every board
// that passes is promised in reached.
#![tactic(auto)]
