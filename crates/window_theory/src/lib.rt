// What document 01's search for windows finds: each window of the range once, ascending; and the range cut in two at a window's start. It stands in specs/;
// there is no code here.
#![tactic(auto)]
