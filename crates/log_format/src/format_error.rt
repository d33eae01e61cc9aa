//! `FormatError`: why bytes are no bundle.
use thiserror::Error;

/// What is wrong with the bytes.
#[derive(Clone, Copy, Debug, PartialEq, Eq, Error)]
pub enum FormatKind {
    /// The bytes end within a part.
    #[error("the bundle ends too soon")]
    Short,
    /// The first bytes are not the magic ones of a version.
    #[error("not a bundle, or one of a version that is not known")]
    BadMagic,
    /// An entry begins with a tag that no entry of the version has.
    #[error("not an entry of a log in this version")]
    BadTag,
    /// A number is out of its range.
    #[error("a number is out of its range")]
    BadCount,
    /// A number is not spelled in its one form.
    #[error("a number is not in its shortest form, or above 64 bits")]
    BadForm,
    /// Bytes stand after the last entry.
    #[error("extra bytes after the bundle")]
    Long,
}

/// Why no bundle was given.
#[derive(Clone, Copy, Debug, PartialEq, Eq, Error)]
pub enum FormatError {
    /// The bytes are refused for what is first wrong from left to right, at this offset from 0.
    #[error("offset {offset}: {kind}")]
    Bad { kind: FormatKind, offset: u64 },
    /// Memory ran out.
    #[error("memory ran out")]
    NoMemory,
}
