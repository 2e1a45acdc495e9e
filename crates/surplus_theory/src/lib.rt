// The surplus of a slice is never read: two images that agree up to the image's length, and two plans that agree up to their rows' end, get the same outcome.
// The laws stand in specs/; there is no code here.
#![tactic(auto)]
