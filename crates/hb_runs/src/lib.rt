//! What each node does, told of it alone: runs of a server, of the coordinator and of the manager.
#![tactic(auto)]
