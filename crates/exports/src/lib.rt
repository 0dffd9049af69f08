// What libsirqobal.a exports: the leaves (`c_leaves`), and the layer by kinds of call. include/sirqobal.h declares it.
#![tactic(auto)]

pub mod c_answers;
pub mod c_claims;
pub mod c_joins;
pub mod c_leaves;
pub mod c_memory;
pub mod c_queries;
pub mod c_sweeps;
