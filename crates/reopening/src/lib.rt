// The claim on opening, stated in specs/Reopening.antt, with an instance in specs/Instance.antt. No code.
#![tactic(auto)]
