// Where in a sound pool a route goes in or comes out, by reading only.
#![tactic(auto)]

mod cells;
mod plan;

pub use plan::{Held, PutPlan, TakePlan, held_at, plan_put, plan_take};
