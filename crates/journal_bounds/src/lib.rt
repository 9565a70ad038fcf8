// Each output is within its field's bound (02, ticket 9): definitions and laws, no code.
#![tactic(auto)]
