//! The value of a world: its events, groups, contexts, families, accounts and tasks by key, what holds of it at any
//! time, the stage that it stands for, what each change does to both, and what a step does to a world that agrees with
//! the record of the steps before it. It has no code but one empty function for each law. It serves the crate that
//! keeps the tables and, by its laws, those that change them.
#![tactic(auto)]

mod laws;

pub use laws::{
    copies_come, copies_fold, counts_are_reset, families_are_whole, groups_go_last, instances_come,
    instances_go, instances_work, lines_work, losing_steps_lead_to_records,
    lost_records_are_counted, occurrences_are_counted, originals_are_found, other_ways_stay,
    others_stay, own_states_are_set, periods_are_set, processors_reach_keys, processors_reach_one,
    processors_stay_rescheduled, quiet_steps_leave_accounts, refused_groups_fail,
    refused_steps_leave_worlds, rings_are_set, seats_are_given, shares_go_along, stages_are_listed,
    standings_are_set, steps_lead_to_records, tasks_are_placed, tasks_come, tasks_end,
    ways_are_reached, ways_are_turned, ways_stay, worlds_agree, worlds_answer_by_records,
    worlds_begin,
};
