// A body of an application: what it lists, and its statements.

use crate::stmt::Stmt;
use rt_ids::ResId;

/// A shared resource that a body lists.
#[derive(Clone, Copy)]
pub struct Listed {
    pub resource: ResId,
    /// Whether it is listed as `&name`, to be read without a lock.
    pub by_ref: bool,
    /// The offset of the listing.
    pub at: u32,
}

/// A local resource that a body lists.
#[derive(Clone, Copy)]
pub struct Owned {
    /// The resource, by its index in the order of declaration.
    pub local: u8,
    /// The offset of the listing.
    pub at: u32,
}

/// The resources that a body lists, and its statements.
#[derive(Drop)]
pub struct Body {
    pub shared: Vec<Listed>,
    pub local: Vec<Owned>,
    pub block: Vec<Stmt>,
    /// The offset of the word `init` or `idle`, or of the task's name.
    pub at: u32,
}
