//! The reasons for which a line is refused, and those for which a text is no script.

ghost use Rattle.std.specs.Prelude.{◌≡◌};
ghost use Rattle.perf_base.specs.Reasons.{number_of, printed_of, script_word};

use crate::lists::Tight;

/// The reason why a line is refused. "Own" marks a rule of this project's profile.
#[derive(Clone, Copy, PartialEq, Eq, Debug)]
pub enum Reason {
    /// The period has bit 63 set; Linux gives EINVAL.
    BadPeriod,
    /// A sample bit is unknown; Linux gives EINVAL.
    BadSampleBits,
    /// A format bit is unknown; Linux gives EINVAL.
    BadFormatBits,
    /// All tasks on any processor; Linux gives EINVAL.
    NoPlace,
    /// A software kind with a period; own.
    SoftPeriod,
    /// The slot or the task number was used; own.
    Exists,
    /// The task does not exist or has exited; for an open Linux gives ESRCH.
    NoTask,
    /// The event is not open; Linux gives EBADF.
    NoEvent,
    /// The leader is itself a sibling; Linux gives EINVAL.
    NotLeader,
    /// Another task or processor; Linux gives EINVAL.
    OtherContext,
    /// A sibling that is pinned or exclusive; Linux gives EINVAL.
    SiblingFlags,
    /// An inherited event that may not be mapped, or a sibling that inherits otherwise than its
    /// leader; Linux gives EINVAL, and takes such a sibling where all tasks are counted.
    Inherit,
    /// The group has 8 members; own.
    GroupFull,
    /// The group has no assignment by itself; Linux gives EINVAL, the set is own.
    NoAssignment(Tight),
    /// The task is on another processor, or the ring was mapped; own.
    Busy,
    /// No task is on; own.
    Idle,
    /// Live copies would pass their limit; own.
    CopiesFull,
    /// The event has no period; Linux gives EINVAL.
    NotSampling,
    /// The period is 0 or has bit 63 set; Linux gives EINVAL.
    ZeroPeriod,
    /// The buffer is too small for the words; Linux gives ENOSPC.
    NoSpace,
    /// An output to itself; Linux gives EINVAL.
    SameEvent,
    /// Another processor; Linux gives EINVAL.
    OtherCpu,
    /// The event has a ring; Linux gives EINVAL for an output.
    HasRing,
    /// The event has no ring; Linux gives EINVAL.
    NoRing,
    /// Hardware members of different PMUs; Linux gives EINVAL.
    OtherPmu,
    /// A hardware kind on a processor of another PMU; Linux gives ENOENT.
    NoDevice,
}

impl Reason {
    /// The number of the reason, 1 to 26, in the order of the reasons above.
    pub fn number(&self) -> u8
        ensures { result ≡ number_of self.now }
    {
        match self {
            Reason::BadPeriod => 1,
            Reason::BadSampleBits => 2,
            Reason::BadFormatBits => 3,
            Reason::NoPlace => 4,
            Reason::SoftPeriod => 5,
            Reason::Exists => 6,
            Reason::NoTask => 7,
            Reason::NoEvent => 8,
            Reason::NotLeader => 9,
            Reason::OtherContext => 10,
            Reason::SiblingFlags => 11,
            Reason::Inherit => 12,
            Reason::GroupFull => 13,
            Reason::NoAssignment(_) => 14,
            Reason::Busy => 15,
            Reason::Idle => 16,
            Reason::CopiesFull => 17,
            Reason::NotSampling => 18,
            Reason::ZeroPeriod => 19,
            Reason::NoSpace => 20,
            Reason::SameEvent => 21,
            Reason::OtherCpu => 22,
            Reason::HasRing => 23,
            Reason::NoRing => 24,
            Reason::OtherPmu => 25,
            Reason::NoDevice => 26,
        }
    }

    /// The word that a report prints.
    pub fn printed(&self) -> &'static str
        ensures { result.now ≡ printed_of self.now }
    {
        match self {
            Reason::BadPeriod => "EATTRPERIOD",
            Reason::BadSampleBits => "ESAMPLEBITS",
            Reason::BadFormatBits => "EFORMATBITS",
            Reason::NoPlace => "ENOPLACE",
            Reason::SoftPeriod => "ESOFTPERIOD",
            Reason::Exists => "EEXIST",
            Reason::NoTask => "ESRCH",
            Reason::NoEvent => "EBADF",
            Reason::NotLeader => "ELEADER",
            Reason::OtherContext => "ECONTEXT",
            Reason::SiblingFlags => "EFLAGS",
            Reason::Inherit => "EINHERIT",
            Reason::GroupFull => "EGROUP",
            Reason::NoAssignment(_) => "EASSIGN",
            Reason::Busy => "EBUSY",
            Reason::Idle => "EIDLE",
            Reason::CopiesFull => "EAGAIN",
            Reason::NotSampling => "ENOSAMPLE",
            Reason::ZeroPeriod => "EPERIOD",
            Reason::NoSpace => "ENOSPC",
            Reason::SameEvent => "ESELF",
            Reason::OtherCpu => "ECPU",
            Reason::HasRing => "EMAPPED",
            Reason::NoRing => "ENORING",
            Reason::OtherPmu => "EPMU",
            Reason::NoDevice => "EDEVICE",
        }
    }
}

/// The reason why a text is no script, by its first faulty line.
#[derive(Clone, Copy, PartialEq, Eq, Debug)]
pub enum SReason {
    /// A byte outside 32 to 126.
    Ascii,
    /// The line is of no form.
    Form,
    /// The form may not stand there.
    Place,
    /// A number or mask is out of its range, or does not rise.
    Range,
    /// The bytes are no attribute.
    Attr,
    /// A name is not declared, or declared twice, or reserved.
    Name,
    /// One kind or line too many.
    Limit,
    /// Too many samples may come.
    Weight,
    /// The order is not complete.
    Order,
    /// The text goes on after its end, or has none.
    End,
}

impl SReason {
    /// The word that a note prints.
    pub fn printed(&self) -> &'static str
        ensures { result.now ≡ script_word self.now }
    {
        match self {
            SReason::Ascii => "ASCII",
            SReason::Form => "FORM",
            SReason::Place => "PLACE",
            SReason::Range => "RANGE",
            SReason::Attr => "ATTR",
            SReason::Name => "NAME",
            SReason::Limit => "LIMIT",
            SReason::Weight => "WEIGHT",
            SReason::Order => "ORDER",
            SReason::End => "END",
        }
    }
}
