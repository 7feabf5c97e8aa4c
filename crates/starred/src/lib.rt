// PAPER. The starred cases of document 01's 'Worked boards', in one table under one statement, computed from the definitions. The
// computing is heavy, so no must-fail edit stands here: those of the definitions are in paper.
#![tactic(auto)]
