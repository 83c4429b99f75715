// The theorems about a load: proved edges, tallies, the lent list, streams that break off, and the bytes of the store after it.
#![tactic(auto)]
