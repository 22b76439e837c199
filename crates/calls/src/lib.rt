// Lists of calls over three planes: a theorem, in proofs/CallList.antt, and no code.
#![tactic(auto)]
