// The starred values, proved: specs/ joins those of every crate in one list with one statement. It has no code of its own.
#![tactic(auto)]
