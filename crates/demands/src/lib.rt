#![tactic(auto)]

// The customer's demands 2 and 3, and the sample sweeps: statements and theorems, no code.
