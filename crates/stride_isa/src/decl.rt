//! Declarations of shared variables and arrays.
ghost use Rattle.std.specs.Prelude.{◌≡◌};
ghost use Rattle.stride_isa.specs.WellFormed.{HasSize, IsDeclaration};

use crate::name::Name;

/// One cell, or an array of this many cells.
#[derive(Clone, Copy, Debug, PartialEq, Eq)]
pub enum Shape {
    Single,
    Array(u32),
}

impl Shape {
    ghost use Rattle.stride_isa.specs.Listing.{cells_of};

    /// How many cells a declaration of this shape has.
    pub fn cells(self) -> u32
        ensures { result ≡ cells_of self }
    {
        match self {
            Shape::Single => 1,
            Shape::Array(size) => size,
        }
    }
}

/// A declared variable or array. Every cell of it starts with `start`.
#[derive(Debug, Drop)]
pub struct Decl {
    pub name: Name,
    pub shape: Shape,
    pub start: u64,
}

/// What holds of every declaration with a size that it may have; the call does nothing.
pub(crate) fn declaration_facts(decl: &Decl)
    requires { HasSize decl.now.shape }
    ensures { IsDeclaration decl.now }
{
    let _name = decl.name.as_slice();
    let _start = decl.start;
}
