// No code: the theory of curves and rows over any field, on which the crates rows and near stand.
#![tactic(auto)]
