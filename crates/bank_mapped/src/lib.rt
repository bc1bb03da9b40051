// Every slot that `slot_map::map` writes is one that a bank takes and gives back unchanged (docs/RULES.md, 'Bank'): the theorem is specs/Exact.antt, proved in proofs/Exact.antt. There is no code here.
#![tactic(auto)]
