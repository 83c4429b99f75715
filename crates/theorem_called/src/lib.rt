// Theorems of the public calls, as a user meets them: no functions.
#![tactic(auto)]
