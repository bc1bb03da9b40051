// The marked examples P1 to P12 (docs/RULES.md, 'Marked examples'): the table is specs/Table.antt, its one theorem is proved in proofs/Examples.antt. There is no code here.
#![tactic(auto)]
