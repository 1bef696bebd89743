// The seven rules by name, and their limits.

ghost use Rattle.std.specs.Prelude.{◌≡◌};
ghost use Rattle.rt_points.specs.Checked.{rule_number};

/// Sections that may be open at once.
pub const MOST_OPEN: usize = 16;

/// The greatest stack region of an image, in bytes.
pub const STACK_BYTES: u32 = 1_048_576;

/// A rule for images, by what it is about.
#[derive(Clone, Copy, PartialEq, Eq)]
pub enum Rule {
    /// At each address one list of sections is open, whichever way the code came there, and it is not too long.
    Nesting,
    /// Interrupts have numbers of their own, priority values have implemented bits alone, and the stack is enough.
    Numbers,
    /// Code leads to instructions alone.
    Addresses,
    /// Each instruction may be used, has its slots and its cell, and ends a job only where it may, with nothing open.
    Operands,
    /// Notes stand where they may, masks change by the notes alone, and no slot that holds a mask is overwritten.
    Notes,
    /// A section is entered by nobody who is inside it, and holds off everyone who enters it, `init` aside.
    Ceilings,
    /// A cell that is stored outside `init`, and touched there at two priority values, is touched there inside one
    /// section alone.
    Guards,
}

impl Rule {
    /// Its number: 1 to 7.
    pub fn number(self) -> u8
        ensures { result ≡ rule_number self }
    {
        match self {
            Rule::Nesting => 1,
            Rule::Numbers => 2,
            Rule::Addresses => 3,
            Rule::Operands => 4,
            Rule::Notes => 5,
            Rule::Ceilings => 6,
            Rule::Guards => 7,
        }
    }
}
