// The exploration that writes an operator's array, apart from what its tasks are made of. There is no code here: the laws
// of one look at the stack's top, of a path of open tasks, and of how long the array is, stand in proofs/.

#![tactic(auto)]
