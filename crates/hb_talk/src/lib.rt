//! What sessions and pdrbal ask, request by request, as talks with the nodes.
#![tactic(auto)]
