// Definitions and laws only, of bytes as lists: see specs/ and proofs/.

#![tactic(auto)]
