// No functions: what the collector holds and answers, from the frames given to it alone, in whatever order they come.
#![tactic(auto)]
