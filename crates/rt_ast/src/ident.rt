// A name or a number of a text, with its offset.

use rt_ids::Name;

/// A name, and where it is in the text.
#[derive(Drop)]
pub struct Ident {
    pub name: Name,
    /// The bytes of the text before it.
    pub at: u32,
}

/// A number, and where it is in the text.
#[derive(Clone, Copy)]
pub struct Number {
    pub value: u32,
    /// The bytes of the text before it.
    pub at: u32,
}
