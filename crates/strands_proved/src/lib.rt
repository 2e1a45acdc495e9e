// In how many parts a run reads a source that this library wrote: the claims stand in specs/Theorem.antt and Short.antt, their proofs in proofs/. No code.
#![tactic(auto)]
