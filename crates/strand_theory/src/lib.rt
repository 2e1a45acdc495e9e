// In how many parts a run reads a source whose stamps fall. It stands in specs/ and proofs/; there is no code here.
#![tactic(auto)]
