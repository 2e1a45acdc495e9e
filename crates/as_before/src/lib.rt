// The claim that histories in time order behave as before request 2026-05 (specs/AsBefore.antt), the rules of then (specs/Before.antt), an instance
// (specs/Instance.antt; that the claim reaches it: proofs/Instance.antt). No code.
#![tactic(auto)]
