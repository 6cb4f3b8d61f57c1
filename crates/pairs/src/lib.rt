// The laws of the tasks that the operators explore: one entry of each set, and two of them for pairs (document 01, "Pairs,
// counts, sizes"). There is no code here, only what proofs/ proves of the definitions.

#![tactic(auto)]
