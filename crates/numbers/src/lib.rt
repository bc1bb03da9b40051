// Which numbers each C call can answer: specs/Rule.antt lists them, and the one theorem of specs/Exact.antt is proved in proofs/Exact.antt. There is no code here.
#![tactic(auto)]
