// How far the panel's figure lies from the exact mean, proved: one theorem about every list of calls. It stands in specs/ and proofs/; there is no code here.
#![tactic(auto)]
