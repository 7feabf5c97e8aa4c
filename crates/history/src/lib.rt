// PROMISE. Demand 3: a plain machine without links gives the same answers as the board, whatever calls are made from the fresh board, and
// the links list its ranking. The machine (specs/Machine) is written to be read alone; what is promised of it is specs/Claims.
#![tactic(auto)]
