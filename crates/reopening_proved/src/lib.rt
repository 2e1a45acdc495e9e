// Proof that an opening changes nothing of what a caller sees (stated in the crate reopening), in specs/ and proofs/. No code.
#![tactic(auto)]
