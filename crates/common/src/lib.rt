// Definitions and laws that the other crates share. It has no code of its own: specs/ has a choice by a test and lists that are
// made place by place, proofs/ the laws by which `search` follows them.
#![tactic(auto)]
