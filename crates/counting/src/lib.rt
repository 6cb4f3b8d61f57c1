// The laws of what an exploration reaches, and of counting it (document 01, "Pairs, counts, sizes"), over any kind of task.
// There is no code here, only what proofs/ proves of the definitions.

#![tactic(auto)]
