//! Definitions of which groups are on, what is counted and what a line answers, with the laws that code is
//! proved against. It has no code but the types that definitions and code share, and one empty function for
//! each law. It serves every crate that does lines, and the definition of the report.
#![tactic(auto)]

mod instance;
mod laws;

pub use instance::{Instance, TaskState, TaskStatus};
pub use laws::{
    folded_sums_grow_by_exits, instances_begin_with_nothing, remainder_goes_by_steps,
    scripts_declare_machines, settling_leaves_verdicts, settling_settled_changes_nothing,
    stage_grows_by_steps, sums_grow_by_shares, verdicts_go_by_eligible_groups,
};
