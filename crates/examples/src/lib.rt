// Computed examples of document 01's sentences beyond A to L. They stand in specs/; there is no code here.
#![tactic(auto)]
