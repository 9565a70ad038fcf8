// A flag as 0 or 1, there and back. It has no code of its own: specs/ has its number, proofs/ the laws.
#![tactic(auto)]
