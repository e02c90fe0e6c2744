// Runs of clusters, over rings.
#![tactic(auto)]

#[cfg(test)]
mod one_node;
