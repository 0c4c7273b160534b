//! Why bytes are no attribute.

/// Why bytes are no attribute of this profile.
#[derive(Clone, Copy, PartialEq, Eq, Debug)]
pub enum AttrFault {
    /// The bytes end before the size field does, or before the size that it gives.
    Short,
    /// The size is out of range, or a byte is set that this profile has no field for.
    TooBig,
    /// The type is none of this profile's.
    BadClass,
    /// A flag bit is set that this profile does not read.
    BadFlags,
    /// A field is set that has to be 0.
    BadField,
}

impl AttrFault {
    ghost use Rattle.std.specs.Prelude.{◌≡◌};
    ghost use Rattle.attr_bytes.specs.Faults.{word_of};

    /// The fault's word.
    pub fn printed(&self) -> &'static str
        ensures { result.now ≡ word_of self.now }
    {
        match self {
            AttrFault::Short => "ESHORT",
            AttrFault::TooBig => "E2BIG",
            AttrFault::BadClass => "ECLASS",
            AttrFault::BadFlags => "EFLAGBITS",
            AttrFault::BadField => "EFIELD",
        }
    }
}
