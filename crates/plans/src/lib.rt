// Plans: what racks owe, and the plan of a phase; definitions and laws alone. The call stands in `planner`.
#![tactic(auto)]
