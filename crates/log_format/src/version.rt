//! `Version`, and the sizes of the numbers of a bundle.
ghost use Rattle.std.specs.Prelude.{◌≡◌};
ghost use Rattle.std.specs.Int.{byte_len};
ghost use Rattle.log_format.specs.Spelling.{greatest, width_of};

/// How a bundle is spelled.
#[derive(Clone, Copy, Debug, PartialEq, Eq)]
pub enum Version {
    /// Each number has a fixed width.
    One,
    /// Small numbers take few bytes.
    Two,
}

impl Version {
    ghost use Rattle.std.specs.Prelude.{◌<◌};

    /// The fewest bytes that an entry takes: a tag and one number.
    pub(crate) const fn least_entry(self) -> usize
        ensures { 0 < result }
    {
        match self {
            Version::One => 5,
            Version::Two => 2,
        }
    }

    /// The fewest bytes that a log takes, which has a number of entries.
    pub(crate) const fn least_log(self) -> usize
        ensures { 0 < result }
    {
        match self {
            Version::One => 4,
            Version::Two => 1,
        }
    }
}

/// How many bits the numbers of a part have at most.
#[derive(Clone, Copy, Debug, PartialEq, Eq)]
pub enum Size {
    Bits16,
    Bits32,
    Bits64,
}

impl Size {
    /// How many bytes such a number takes in version 1.
    pub(crate) const fn width(self) -> usize
        ensures { result ≡ byte_len (width_of self) }
    {
        match self {
            Size::Bits16 => 2,
            Size::Bits32 => 4,
            Size::Bits64 => 8,
        }
    }

    /// The greatest such number.
    pub(crate) const fn greatest(self) -> u64
        ensures { result ≡ greatest self }
    {
        match self {
            Size::Bits16 => 0xffff,
            Size::Bits32 => 0xffff_ffff,
            Size::Bits64 => 0xffff_ffff_ffff_ffff,
        }
    }
}
