// What the memories of a record hold after a list of ticks, said by the ticks: specs/ has the words, proofs/ the laws. It has no code
// of its own.
#![tactic(auto)]
