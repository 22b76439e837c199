// Definitions and laws: how the greens of a frame are worked out.
#![tactic(auto)]
