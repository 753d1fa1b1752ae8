#![tactic(auto)]

// What the program lists: the hits of an image by parts of it, and its lines; definitions and laws, no code.
