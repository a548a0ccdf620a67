// Demands 2 and 3, and that every card comes home by any way: theorems about plans, moves, phases and runs. It has no function.
#![tactic(auto)]
