// Laws of the figures, proved in specs/: the last point from the cursor backward, both ends where there is a point, what the panel shows of a
// value and of two stores. No code.
#![tactic(auto)]
