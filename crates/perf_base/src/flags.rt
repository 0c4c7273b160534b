//! The flags of an attribute.

ghost use Rattle.std.specs.Prelude.{⊤, ◌≡◌, map};
ghost use Rattle.perf_base.specs.Flags.{flag_table};
ghost use Rattle.perf_base.specs.Flags as says;

use bitflags::{Flag, Flags};

/// The flags of an attribute: those bits of perf_event_attr that this profile knows, numbered by their
/// order in the text of a script.
#[derive(Clone, Copy, PartialEq, Eq, Debug)]
pub struct AttrFlags(pub u64);

impl AttrFlags {
    pub const DISABLED: AttrFlags = AttrFlags(1);

    pub const INHERIT: AttrFlags = AttrFlags(2);

    pub const PINNED: AttrFlags = AttrFlags(4);

    pub const EXCLUSIVE: AttrFlags = AttrFlags(8);

    pub const EXCLUDE_USER: AttrFlags = AttrFlags(16);

    pub const EXCLUDE_KERNEL: AttrFlags = AttrFlags(32);

    pub const SAMPLE_ID_ALL: AttrFlags = AttrFlags(64);

    const TABLE: &'static [Flag<AttrFlags>] = &[
        Flag {
            name: "disabled",
            value: AttrFlags::DISABLED,
        },
        Flag {
            name: "inherit",
            value: AttrFlags::INHERIT,
        },
        Flag {
            name: "pinned",
            value: AttrFlags::PINNED,
        },
        Flag {
            name: "exclusive",
            value: AttrFlags::EXCLUSIVE,
        },
        Flag {
            name: "exclude_user",
            value: AttrFlags::EXCLUDE_USER,
        },
        Flag {
            name: "exclude_kernel",
            value: AttrFlags::EXCLUDE_KERNEL,
        },
        Flag {
            name: "sample_id_all",
            value: AttrFlags::SAMPLE_ID_ALL,
        },
    ];

    /// Each flag with the word that a script has for it and its bit, in the order of a script's text. Reading
    /// and printing go by this table, and it is the table of `Flags`.
    pub fn table() -> &'static [Flag<AttrFlags>]
        ensures { map (λ flag. (flag.name.now, flag.value.0)) result.now ≡ flag_table }
    {
        AttrFlags::TABLE
    }

    /// Whether the event is off at first.
    pub fn is_disabled(self) -> bool
        ensures { result ≡ says.is_disabled self }
    {
        self.intersects(AttrFlags::DISABLED)
    }

    /// Whether tasks that are forked later are counted too.
    pub fn is_inherited(self) -> bool
        ensures { result ≡ says.is_inherited self }
    {
        self.intersects(AttrFlags::INHERIT)
    }

    /// Whether the group is to be on whenever that is possible.
    pub fn is_pinned(self) -> bool
        ensures { result ≡ says.is_pinned self }
    {
        self.intersects(AttrFlags::PINNED)
    }

    /// Whether the group is to be the only hardware group on its processor.
    pub fn is_exclusive(self) -> bool
        ensures { result ≡ says.is_exclusive self }
    {
        self.intersects(AttrFlags::EXCLUSIVE)
    }

    /// Whether occurrences in user mode are left out.
    pub fn excludes_user(self) -> bool
        ensures { result ≡ says.excludes_user self }
    {
        self.intersects(AttrFlags::EXCLUDE_USER)
    }

    /// Whether occurrences in kernel mode are left out.
    pub fn excludes_kernel(self) -> bool
        ensures { result ≡ says.excludes_kernel self }
    {
        self.intersects(AttrFlags::EXCLUDE_KERNEL)
    }

    /// Whether each record of another kind than a sample ends with the fields that tell its event.
    pub fn identifies_all(self) -> bool
        ensures { result ≡ says.identifies_all self }
    {
        self.intersects(AttrFlags::SAMPLE_ID_ALL)
    }
}

impl Flags for AttrFlags {
    type Bits = u64;

    ghost exact = { ⊤ };

    ghost table = { flag_table };

    ghost set_of = { λ f. f.0 };

    fn flags<'a>() -> &'a [Flag<AttrFlags>] {
        AttrFlags::TABLE
    }

    fn bits(&self) -> u64 {
        self.0
    }

    fn from_bits_retain(bits: u64) -> AttrFlags {
        AttrFlags(bits)
    }
}
