//! Why words are no record, or a record has no such fields.

/// Why words are no record, or why a record does not have the fields that are asked for.
#[derive(Clone, Copy, PartialEq, Eq, Debug)]
pub enum RecordFault {
    /// The words end before the first, or before the size that it gives.
    Short,
    /// The type is none of this profile's, or the record is of the other type.
    BadType,
    /// The misc is none of the type's.
    BadMisc,
    /// The size is none of the type's, or not that of the fields.
    BadSize,
    /// The high half of the CPU word is not 0.
    BadPad,
}
