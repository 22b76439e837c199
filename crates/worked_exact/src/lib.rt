// Values of the exact reconstruction of those frames that another implementation worked out, and the theorem that the definition gives them; no code.
#![tactic(auto)]
