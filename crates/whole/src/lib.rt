#![tactic(auto)]

// The sweep of a whole image: its definition and samples, no code.
