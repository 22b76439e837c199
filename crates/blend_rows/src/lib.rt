// Green of rows by logistic blend, worked out in half rows.
#![tactic(auto)]

pub mod around;
pub mod block;
pub mod fetch;
pub mod half;
pub mod row;
pub mod stencil;
pub mod workspace;
