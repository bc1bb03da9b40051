// Whole numbers: definitions are in specs/, their laws in proofs/. There is no code here, and no channel's rule.
#![tactic(auto)]
