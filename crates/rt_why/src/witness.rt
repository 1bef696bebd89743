// Where a rule is broken, and the answer of `why`.

ghost use Rattle.std.specs.Prelude.{◌≡◌};
ghost use Rattle.rt_why.specs.Witness.{rule_of};

use crate::point::Point;
use rt_ids::Section;
use rt_points::Rule;

/// A part of the fourth rule, which each instruction keeps at each point.
#[derive(Clone, Copy, PartialEq, Eq)]
pub enum OperandPart {
    /// It computes no cell's number, sets no alarm, and calls no body.
    Support,
    /// Its slots are in its owner's frame.
    Slots,
    /// Its cell is in memory.
    Cell,
    /// Where it ends a job it may, and nothing is open.
    End,
}

/// A part of the fifth rule, which each instruction keeps with its note at each point.
#[derive(Clone, Copy, PartialEq, Eq)]
pub enum NotePart {
    /// The note stands where it may.
    Place,
    /// An instruction that changes a mask has its note.
    Note,
    /// No slot is written that an open section saved.
    Saved,
    /// A mask is set where it has an effect and can be put back.
    Mask,
}

/// A section, and a point at which it is not open.
#[derive(Drop)]
pub struct Uncovered {
    pub section: Section,
    pub point: Point,
}

/// A cell that no section guards.
#[derive(Drop)]
pub struct Unguarded {
    /// Its number.
    pub cell: usize,
    /// A point outside `init` at which it is stored.
    pub storer: Point,
    /// A point outside `init` at which it is touched.
    pub one: Point,
    /// Another, of an owner of another priority value.
    pub other: Point,
    /// For each section that is open at `one`, innermost first, a point outside `init` at which the cell is touched
    /// and that section is not open.
    pub outside: Vec<Uncovered>,
}

/// Where a rule is broken.
#[derive(Drop)]
pub enum Witness {
    /// First rule: two points of one owner at one address, with other sections open.
    Ways(Point, Point),
    /// First rule: a point with too many sections open.
    Depth(Point),
    /// Second rule: two rows of one interrupt number, by their indices.
    Numbers(usize, usize),
    /// Second rule: the index of a row whose priority value has a bit that is not implemented.
    Value(usize),
    /// Second rule: the stack is no whole number of pairs of words.
    Pairs,
    /// Second rule: the stack is too large.
    Large,
    /// Second rule: the stack is smaller than this need, in bytes.
    Stack(u64),
    /// Third rule: a point without an instruction.
    Past(Point),
    /// Fourth rule: a point whose instruction fails this part.
    Operand(Point, OperandPart),
    /// Fifth rule: a point whose instruction and note fail this part.
    Noted(Point, NotePart),
    /// Sixth rule: a point that enters a section that is open there.
    Again(Point),
    /// Sixth rule: a point that enters a section and does not hold off the other, which enters it too.
    Weak(Point, Point),
    /// Seventh rule: a cell that no section guards.
    Guard(Unguarded),
}

impl Witness {
    /// The rule that it refutes.
    pub fn rule(&self) -> Rule
        ensures { result ≡ rule_of self.now }
    {
        match self {
            Witness::Ways(_, _) | Witness::Depth(_) => Rule::Nesting,
            Witness::Numbers(_, _)
            | Witness::Value(_)
            | Witness::Pairs
            | Witness::Large
            | Witness::Stack(_) => Rule::Numbers,
            Witness::Past(_) => Rule::Addresses,
            Witness::Operand(_, _) => Rule::Operands,
            Witness::Noted(_, _) => Rule::Notes,
            Witness::Again(_) | Witness::Weak(_, _) => Rule::Ceilings,
            Witness::Guard(_) => Rule::Guards,
        }
    }
}

/// The answer: the image keeps all rules, or a witness of the least that it breaks.
#[derive(Drop)]
pub enum Why {
    /// The image keeps all rules.
    Yes,
    /// It breaks the rule of this witness, and no rule of a lower number.
    No(Witness),
}
