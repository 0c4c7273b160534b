//! The laws of the stages that lines lead to, each as the contract of an empty function.

ghost use Rattle.stage_laws.specs.Standings.{BriefsLaw, JudgedBriefsLaw, SameStandingsLaw, SeatedBriefsLaw, SettledLaw, StandingsLaw};
ghost use Rattle.stage_laws.specs.Reachable.{FewOriginalsLaw, FirstSoundLaw, StepSoundLaw, ReachedSoundLaw};
ghost use Rattle.stage_laws.specs.Bounds.{FamilyShareLaw, FamilySumsLaw, FewIdsLaw, SmallSumsLaw};
ghost use Rattle.stage_laws.specs.Narrowing.{NarrowLaw, SettleOthersLaw, ChangedSoundLaw, ReachedSettledLaw, SettleSoundLaw};
ghost use Rattle.stage_laws.specs.Turns.{FirstGoesLastLaw, OtherContextsLaw, PlacesLaw, TickLaw, TurnsLaw};
ghost use Rattle.stage_laws.specs.OneByOne.{IdsLaw, CommandOneByOneLaw, PeriodOneLaw, RingOneLaw, CloseOneByOneLaw, ExitOneByOneLaw, ForkOneByOneLaw, OnOnceLaw, ReadyOnceLaw, FamilyLaw, NoFamilyLaw, CopiesLeaveOriginalsLaw};

/// Standings depend on the briefs of the eligible groups in pass order alone.
pub fn standings_go_by_briefs()
    ensures { BriefsLaw }
{}

/// Standings are those of the briefs, judged pass by pass.
pub fn standings_are_judged_by_briefs()
    ensures { JudgedBriefsLaw }
{}

/// The hardware events that are on, with the counters that can count them, are those of the briefs that are on when the
/// briefs are judged pass by pass.
pub fn briefs_tell_what_is_seated()
    ensures { SeatedBriefsLaw }
{}

/// A change of instances that keeps what a brief needs leaves the standings, and what is settled stays so.
pub fn standings_outlive_small_changes()
    ensures { SameStandingsLaw }
{}

/// Settling puts the leader of each refused pinned group in error by its standing, and leaves all else.
pub fn settling_goes_by_standings()
    ensures { StandingsLaw }
{}

/// A processor is settled exactly where no pinned group of it is refused.
pub fn settled_has_no_refused_pinned_group()
    ensures { SettledLaw }
{}

/// A stage whose ids and slots are of one instance each has at most 256 originals.
pub fn slots_bound_originals()
    ensures { FewOriginalsLaw }
{}

/// Settling a processor leaves all that another one reaches.
pub fn settling_leaves_others()
    ensures { SettleOthersLaw }
{}

/// After a step that comes at a settled stage only the processors that it touches have to be settled, every processor
/// is settled then, and those that it does not touch have the standings that they had.
pub fn steps_narrow()
    ensures { NarrowLaw }
{}

/// The stage before the first line is sound.
pub fn first_stage_is_sound()
    ensures { FirstSoundLaw }
{}

/// Each line within the limits, refused or not, leaves a sound stage sound.
pub fn steps_leave_stages_sound()
    ensures { StepSoundLaw }
{}

/// Every stage that lines within the limits lead to is sound.
pub fn reached_stages_are_sound()
    ensures { ReachedSoundLaw }
{}

/// The change of a line within the limits keeps a stage sound before anything is settled.
pub fn changes_keep_sound()
    ensures { ChangedSoundLaw }
{}

/// Settling a processor keeps a stage sound.
pub fn settling_keeps_sound()
    ensures { SettleSoundLaw }
{}

/// Every stage that lines within the limits lead to is settled.
pub fn reached_stages_are_settled()
    ensures { ReachedSettledLaw }
{}

/// A step within the limits adds to an event and its copies together at most what it may add to one instance.
pub fn steps_add_one_share_to_families()
    ensures { FamilyShareLaw }
{}

/// What an event has counted with its copies is at most what all steps may add.
pub fn family_sums_are_bounded()
    ensures { FamilySumsLaw }
{}

/// The sums of an event with its copies stay below 2 to the 44 over 16,384 lines.
pub fn family_sums_are_small()
    ensures { SmallSumsLaw }
{}

/// Ids are few: an open draws one, a fork one for each copy, and nothing else draws any.
pub fn few_ids_are_drawn()
    ensures { FewIdsLaw }
{}

/// Where the first group that passes a test goes last, those that pass are turned by one place and the others keep
/// their order among themselves.
pub fn first_goes_last_turns()
    ensures { FirstGoesLastLaw }
{}

/// A tick turns each of its processor's two contexts in which some eligible flexible group is not on: the eligible
/// flexible hardware groups by one place. It leaves the flexible groups of one in which all are on.
pub fn ticks_turn_waiting_contexts()
    ensures { TickLaw }
{}

/// A tick leaves the flexible groups of all contexts that are not its processor's.
pub fn ticks_leave_other_contexts()
    ensures { OtherContextsLaw }
{}

/// Over k - 1 ticks of a processor, at each of which some eligible flexible group of a context is not on, with nothing
/// between them that changes its flexible groups or the task there, each of its k eligible flexible hardware groups has
/// been the first of them, at the start or after one of the ticks.
pub fn each_group_has_its_turn()
    ensures { TurnsLaw }
{}

/// Over j of such ticks, j at most k, the k eligible flexible hardware groups are turned by j places.
pub fn ticks_turn_by_places()
    ensures { PlacesLaw }
{}

/// The ids of instances in their order are one order of their ids.
pub fn ids_stand_in_order()
    ensures { IdsLaw }
{}

/// A command is a change of each instance that it reaches, one after the other in any order.
pub fn commands_go_one_by_one()
    ensures { CommandOneByOneLaw }
{}

/// A new period changes one instance, the original.
pub fn periods_change_one_instance()
    ensures { PeriodOneLaw }
{}

/// A ring that an event is given changes one instance, the original.
pub fn rings_change_one_instance()
    ensures { RingOneLaw }
{}

/// Closing an event takes away each instance of its family, one after the other in any order.
pub fn closes_go_one_by_one()
    ensures { CloseOneByOneLaw }
{}

/// An exit takes away each copy of its task, one after the other in any order.
pub fn exits_go_one_by_one()
    ensures { ExitOneByOneLaw }
{}

/// A fork adds a copy of each instance of the inherited groups, one after the other in the order of their ids.
pub fn forks_go_one_by_one()
    ensures { ForkOneByOneLaw }
{}

/// No two of the instances that are on have one id.
pub fn on_instances_are_on_once()
    ensures { OnOnceLaw }
{}

/// No two of the instances that are ready have one id.
pub fn ready_instances_are_ready_once()
    ensures { ReadyOnceLaw }
{}

/// The instances of an open event are its original and its copies, each once.
pub fn open_events_have_one_original()
    ensures { FamilyLaw }
{}

/// An event that is not open has no instances.
pub fn closed_events_have_no_instances()
    ensures { NoFamilyLaw }
{}

/// Copies that a fork adds leave the originals as they are.
pub fn copies_leave_originals()
    ensures { CopiesLeaveOriginalsLaw }
{}
