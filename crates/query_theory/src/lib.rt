// Laws of reading, proved in specs/ and proofs/: the reading order, the ends, the tier that query_auto chooses, a query's points. No code.
#![tactic(auto)]
