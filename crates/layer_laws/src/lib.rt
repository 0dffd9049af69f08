// Theorems of the rules of `layer`: specs/ has what is stated, proofs/ the proofs. No code stands here.
#![tactic(auto)]
