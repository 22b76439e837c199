// Frames whose planes another implementation worked out, and the theorem that the whole-number rules give them; no code.
#![tactic(auto)]
