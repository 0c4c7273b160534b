//! Laws of the stages that lines lead to: what holds of each of them, what the standings of groups depend on, which
//! processors a line touches, what one line adds, and how much any lines do. They stand on the definitions of
//! stage_spec, and each is the contract of an empty function. They serve the crates that keep a stage and do lines.
#![tactic(auto)]

mod laws;

pub use laws::{
    briefs_tell_what_is_seated, changes_keep_sound, closed_events_have_no_instances,
    closes_go_one_by_one, commands_go_one_by_one, copies_leave_originals, each_group_has_its_turn,
    exits_go_one_by_one, family_sums_are_bounded, family_sums_are_small, few_ids_are_drawn,
    first_goes_last_turns, first_stage_is_sound, forks_go_one_by_one, ids_stand_in_order,
    on_instances_are_on_once, open_events_have_one_original, periods_change_one_instance,
    reached_stages_are_settled, reached_stages_are_sound, ready_instances_are_ready_once,
    rings_change_one_instance, settled_has_no_refused_pinned_group, settling_goes_by_standings,
    settling_keeps_sound, settling_leaves_others, slots_bound_originals,
    standings_are_judged_by_briefs, standings_go_by_briefs, standings_outlive_small_changes,
    steps_add_one_share_to_families, steps_leave_stages_sound, steps_narrow,
    ticks_leave_other_contexts, ticks_turn_by_places, ticks_turn_waiting_contexts,
};
