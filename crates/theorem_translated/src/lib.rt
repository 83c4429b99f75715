// The theorems about a load with translation: proved edges, numbers, links, classes, tallies, reports, and the bytes of the store after it.
#![tactic(auto)]
