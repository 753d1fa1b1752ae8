#![tactic(auto)]

// The tree tables: definitions and laws, no code.
