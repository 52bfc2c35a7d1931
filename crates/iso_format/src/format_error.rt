// Why bytes are no record.

/// The first test that the bytes of a record fail, and the place of its field from the record's gate on.
#[derive(Clone, Copy, Debug, PartialEq, Eq)]
pub enum FormatError {
    /// The bytes end before the record and the gate after it.
    Short(u64),
    /// The kind is none of the image's form.
    Kind(u64),
    /// A zero byte is not zero.
    NotZero(u64),
    /// There are no parts, or more than fit the body.
    Count(u64),
    /// A part does not come after the one before it.
    Order(u64),
    /// A part does not lie in a block of the array.
    Range(u64),
    /// A part passes the end of the body, or the body goes on after the last part.
    Length(u64),
    /// The number is not the one that was expected.
    Number(u64),
}

impl FormatError {
    ghost use Rattle.std.specs.Prelude.{◌≡◌};
    ghost use Rattle.iso_format.specs.Faults.{test_number, offset_of};

    /// The number of the test that failed, 1 to 8 in the order of the variants.
    pub fn number(self) -> u8
        ensures { result ≡ test_number self }
    {
        match self {
            FormatError::Short(_) => 1,
            FormatError::Kind(_) => 2,
            FormatError::NotZero(_) => 3,
            FormatError::Count(_) => 4,
            FormatError::Order(_) => 5,
            FormatError::Range(_) => 6,
            FormatError::Length(_) => 7,
            FormatError::Number(_) => 8,
        }
    }

    /// The place of the field that failed it, from the record's gate on.
    pub fn offset(self) -> u64
        ensures { result ≡ offset_of self }
    {
        match self {
            FormatError::Short(at)
            | FormatError::Kind(at)
            | FormatError::NotZero(at)
            | FormatError::Count(at)
            | FormatError::Order(at)
            | FormatError::Range(at)
            | FormatError::Length(at)
            | FormatError::Number(at) => at,
        }
    }
}
