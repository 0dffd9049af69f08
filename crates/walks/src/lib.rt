// What proofs of every crate cite of the kit, by one name (proofs/). It knows no record and no table.
#![tactic(auto)]
