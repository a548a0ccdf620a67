// The reader and the writer of job files undo each other; laws alone.
#![tactic(auto)]
