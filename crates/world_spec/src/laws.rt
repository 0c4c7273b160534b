//! The laws of the changes of a world, each as the contract of an empty function.

ghost use Rattle.world_spec.specs.Agreement.{FamilyAgreesLaw, FirstAgreesLaw, OtherRecordLaw, RecordsAgreeLaw};
ghost use Rattle.world_spec.specs.Comings.{AddKeptLaw, AddLaw, OpenLaw};
ghost use Rattle.world_spec.specs.Copying.{CopyKeptLaw, CopyLaw};
ghost use Rattle.world_spec.specs.Families.{CopiesLaw, FamilyIdsLaw, FamilySumsLaw, GroupLaw, OneReachedLaw, OpenSlotLaw, OriginalLaw};
ghost use Rattle.world_spec.specs.First.{FirstKeptLaw, FirstStageLaw};
ghost use Rattle.world_spec.specs.Foldings.{FoldKeptLaw, FoldLaw, FoldSumsLaw};
ghost use Rattle.world_spec.specs.Goings.{GoKeptLaw, GoLaw};
ghost use Rattle.world_spec.specs.Laws.{EndKeptLaw, EndLaw, HitKeptLaw, HitLaw, LostKeptLaw, LostLaw, OwnKeptLaw, OwnLaw, PeriodKeptLaw, PeriodLaw, PlaceKeptLaw, PlaceLaw, ResetKeptLaw, ResetLaw, RingKeptLaw, RingLaw, SeatsKeptLaw, SeatsLaw, StandingKeptLaw, StandingLaw, TaskKeptLaw, TaskLaw};
ghost use Rattle.world_spec.specs.Listings.{ContextLaw, MembersLaw, NumberedLaw, OneInContextLaw, OneOnProcessorLaw, PassesLaw};
ghost use Rattle.world_spec.specs.Metering.{AlongLaw, GivenLaw, ShareLaw, WorkGrowsLaw, WorkKeptLaw, WorkStageLaw, WorkWaysLaw};
ghost use Rattle.world_spec.specs.Moves.{MoveKeptLaw, MoveLaw};
ghost use Rattle.world_spec.specs.Rescheduled.{FailKeptLaw, FailLaw, FailStageLaw, LeftLaw, SeatsAnswerLaw};
ghost use Rattle.world_spec.specs.Staying.{AddStaysLaw, FoldStaysLaw, GoStaysLaw, OriginLaw};
ghost use Rattle.world_spec.specs.Ways.{AddWaysLaw, FoldWaysLaw, GoWaysLaw, OtherWaysLaw, OutsideContextLaw, OutsideGroupLaw, OwnWaysLaw, PeriodWaysLaw, PlaceWaysLaw, RingWaysLaw, StandingWaysLaw, TurnedLaw, WayLaw};
ghost use Rattle.world_spec.specs.Working.{OnKeysLaw, OnLaw, ReachedKeysLaw, ReadyKeysLaw, ReadyLaw};
ghost use Rattle.world_spec.specs.Asking.{AnswerLaw};
ghost use Rattle.world_spec.specs.Quiet.{QuietLaw, RefusedLaw};
ghost use Rattle.world_spec.specs.Stepping.{LosingLaw, SteppedLaw};

/// A new own state is that of the stage's instance, and keeps the world where only a leader gets an error.
pub fn own_states_are_set()
    ensures stage { OwnLaw }
    ensures kept { OwnKeptLaw }
{}

/// A new period is that of the stage's instance, and keeps the world.
pub fn periods_are_set()
    ensures stage { PeriodLaw }
    ensures kept { PeriodKeptLaw }
{}

/// A ring is that of the stage's instance, remembered where the mapping is its own, and keeps the world.
pub fn rings_are_set()
    ensures stage { RingLaw }
    ensures kept { RingKeptLaw }
{}

/// Occurrences leave the stage, and keep the world while the count of the family has room.
pub fn occurrences_are_counted()
    ensures stage { HitLaw }
    ensures kept { HitKeptLaw }
{}

/// A reset leaves the stage and keeps the world.
pub fn counts_are_reset()
    ensures stage { ResetLaw }
    ensures kept { ResetKeptLaw }
{}

/// A standing leaves the stage and keeps the world.
pub fn standings_are_set()
    ensures stage { StandingLaw }
    ensures kept { StandingKeptLaw }
{}

/// Seats leave the stage, and keep the world where they are sound and over the processor's counters.
pub fn seats_are_given()
    ensures stage { SeatsLaw }
    ensures kept { SeatsKeptLaw }
{}

/// A lost record leaves the stage, and keeps the world while the count has room.
pub fn lost_records_are_counted()
    ensures stage { LostLaw }
    ensures kept { LostKeptLaw }
{}

/// A task that is placed is what a switch puts on the stage's processor, and keeps the world where it is live
/// and on no other one.
pub fn tasks_are_placed()
    ensures stage { PlaceLaw }
    ensures kept { PlaceKeptLaw }
{}

/// A task that comes is the stage's new task, and keeps the world where there never was one of its number.
pub fn tasks_come()
    ensures stage { TaskLaw }
    ensures kept { TaskKeptLaw }
{}

/// A task that ends has exited in the stage, and keeps the world where no processor runs it.
pub fn tasks_end()
    ensures stage { EndLaw }
    ensures kept { EndKeptLaw }
{}

/// A group that goes last in its list is the stage's, and the world is kept.
pub fn groups_go_last()
    ensures stage { MoveLaw }
    ensures kept { MoveKeptLaw }
{}

/// An instance that comes is the stage's: a group of its own, or a sibling of its leader; of an original it is what an
/// open makes. The world is kept.
pub fn instances_come()
    ensures stage { AddLaw }
    ensures opened { OpenLaw }
    ensures kept { AddKeptLaw }
{}

/// An instance that goes, a sibling or a leader, is the stage's, and the world is kept where an original goes after its
/// copies.
pub fn instances_go()
    ensures stage { GoLaw }
    ensures kept { GoKeptLaw }
{}

/// A copy that is folded is the stage's instance that goes. The world is kept, and so are the sums of each family.
pub fn copies_fold()
    ensures stage { FoldLaw }
    ensures kept { FoldKeptLaw }
    ensures sums { FoldSumsLaw }
{}

/// The seats of a processor that stands as rescheduling leaves it are the answer to SEATS. A change that leaves its
/// seats, its groups' standings and what verdicts need of them leaves it untouched.
pub fn processors_stay_rescheduled()
    ensures seats { SeatsAnswerLaw }
    ensures stay { LeftLaw }
{}

/// Where a processor was judged and its refused pinned groups then go to error, the stage is settled there, the
/// processor stands as rescheduling leaves it, and the world is kept.
pub fn refused_groups_fail()
    ensures stage { FailStageLaw }
    ensures rescheduled { FailLaw }
    ensures kept { FailKeptLaw }
{}

/// The first world is kept, and stands for the first stage.
pub fn worlds_begin()
    ensures stage { FirstStageLaw }
    ensures kept { FirstKeptLaw }
{}

/// A processor reaches at most one instance of a family, by keys and on the stage. So does a context.
pub fn processors_reach_one()
    ensures one { OneReachedLaw }
    ensures reached { OneOnProcessorLaw }
    ensures context { OneInContextLaw }
{}

/// The groups of the passes, the members of a group and the instances of a context are those of the world's keys, and
/// the stage is numbered.
pub fn stages_are_listed()
    ensures passes { PassesLaw }
    ensures members { MembersLaw }
    ensures context { ContextLaw }
    ensures numbered { NumberedLaw }
{}

/// A copy that comes is what the definitions' fork adds for the instance that it is made from, and the world is kept.
pub fn copies_come()
    ensures stage { CopyLaw }
    ensures kept { CopyKeptLaw }
{}

/// The original in a slot, and its group, are those of the slot's family, and the slot is open where there is one. The
/// original of each instance is there.
pub fn originals_are_found()
    ensures original { OriginalLaw }
    ensures opened { OpenSlotLaw }
    ensures group { GroupLaw }
    ensures origin { OriginLaw }
{}

/// The instances of a family on the stage are those of its keys, with the same ids and sums, and copies are as many.
pub fn families_are_whole()
    ensures ids { FamilyIdsLaw }
    ensures sums { FamilySumsLaw }
    ensures copies { CopiesLaw }
{}

/// The first world agrees with the record before the first step. Records with which a world agrees are those that agree
/// with each other, and the sums of a family are the record's.
pub fn worlds_agree()
    ensures first { FirstAgreesLaw }
    ensures records { RecordsAgreeLaw }
    ensures others { OtherRecordLaw }
    ensures families { FamilyAgreesLaw }
{}

/// When an instance comes, goes or is folded, all others stay with their contexts and accounts, and so do other
/// families.
pub fn others_stay()
    ensures come { AddStaysLaw }
    ensures gone { GoStaysLaw }
    ensures folded { FoldStaysLaw }
{}

/// The instances that are on, and those that are ready, are those of the world's keys by its standings and own states,
/// in pass order.
pub fn instances_work()
    ensures on { OnLaw }
    ensures ready { ReadyLaw }
{}

/// The way that an instance has now is turned as the world has it. A change that keeps a key's way leaves it turned.
pub fn ways_are_turned()
    ensures way { WayLaw }
    ensures still { TurnedLaw }
{}

/// What changes no entry, no standing and no task that runs keeps all ways, and so do a period and a ring. An own state
/// and a standing keep those of other groups, and a task that is placed those of the contexts of other tasks.
pub fn ways_stay()
    ensures other { OtherWaysLaw }
    ensures period { PeriodWaysLaw }
    ensures ring { RingWaysLaw }
    ensures own { OwnWaysLaw }
    ensures standing { StandingWaysLaw }
    ensures placed { PlaceWaysLaw }
{}

/// Keys that are not among the members of a group, or of a task's context, are led by another key, or stand in another
/// context.
pub fn ways_are_reached()
    ensures group { OutsideGroupLaw }
    ensures context { OutsideContextLaw }
{}

/// An instance that comes, goes or is folded keeps the ways of all others, but for the siblings that it led.
pub fn other_ways_stay()
    ensures come { AddWaysLaw }
    ensures gone { GoWaysLaw }
    ensures folded { FoldWaysLaw }
{}

/// By the keys that a processor reaches, those that are on and those that are ready are the stage's. A key stands among
/// them where its context is on the processor.
pub fn processors_reach_keys()
    ensures on { OnKeysLaw }
    ensures ready { ReadyKeysLaw }
    ensures reached { ReachedKeysLaw }
{}

/// A line of work leaves the stage and all ways. It keeps the world where there is room, and a family grows by no more
/// than the most that the line gives.
pub fn lines_work()
    ensures stage { WorkStageLaw }
    ensures ways { WorkWaysLaw }
    ensures kept { WorkKeptLaw }
    ensures grown { WorkGrowsLaw }
{}

/// Where a processor was judged, what an instance has of a stretch of work along it is the definitions' share, but for
/// the occurrences of one that samples. Its occurrences are those of an event whose count goes along totals.
pub fn shares_go_along()
    ensures share { ShareLaw }
    ensures given { GivenLaw }
    ensures along { AlongLaw }
{}

/// Where a world agrees with a record, a world that a step leads to agrees with the record after that step, if the step
/// loses no record.
pub fn steps_lead_to_records()
    ensures { SteppedLaw }
{}

/// So where the step loses records, whose losses the world counts.
pub fn losing_steps_lead_to_records()
    ensures { LosingLaw }
{}

/// A step that is no stretch of work, no switch that is done, no reset and no new period leaves what each instance has
/// counted and what is left of its period.
pub fn quiet_steps_leave_accounts()
    ensures { QuietLaw }
{}

/// A step that is refused leads to the world itself.
pub fn refused_steps_leave_worlds()
    ensures { RefusedLaw }
{}

/// What a world answers by what its families have counted and lost is the answer by each record with which it agrees.
pub fn worlds_answer_by_records()
    ensures { AnswerLaw }
{}
