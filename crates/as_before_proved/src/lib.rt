// Proof that histories in time order behave as before request 2026-05 (stated in the crate as_before), in specs/ and proofs/. No code.
#![tactic(auto)]
