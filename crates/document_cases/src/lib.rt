// Worked cases of document 01 and of wish 1, and two histories, computed over the definitions: specs/ has them. No code
// stands here.
#![tactic(auto)]
