#![tactic(auto)]

// The reading rules: definitions and laws, no code.
