// Laws of what a host's request does to a master: one that has a message refuses it, and one that takes it keeps its reader and its timer.
#![tactic(auto)]
