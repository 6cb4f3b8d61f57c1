// Demand 3: expressions over rule sets, the arrays that their calls write, and the theorem that these are equal exactly where the values
// are. There is no code here: the definitions stand in specs/, the theorem and what follows from it in proofs/.

#![tactic(auto)]
