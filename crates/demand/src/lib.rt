// The third demand, stated, and an instance of it by computation; the bound on the panel's figure after such calls, stated. They stand in specs/; there is no code here.
#![tactic(auto)]
