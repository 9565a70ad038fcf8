// Which readings the voltage U needs, and that it is there exactly where they are. It has no code of its own: specs/ has the sentence,
// proofs/ that what `sensing` finds keeps to it.
#![tactic(auto)]
