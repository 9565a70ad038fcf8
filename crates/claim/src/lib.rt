// Demand 3, over what can be seen of a list of ticks: specs/ has its words and the claim, proofs/ has worked lists that meet each
// part of it, and lists that it shuts out. It has no code of its own.
#![tactic(auto)]
