// Wrong layers and wrong joins, with theorems of what each fails: specs/ has them. No code stands here.
#![tactic(auto)]
