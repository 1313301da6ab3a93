// What the texts of the two files say, and the law of reading them: definitions (specs/) and proofs, no code.
#![tactic(auto)]
