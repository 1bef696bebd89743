/// A place in a text. Lines and columns count from 1, and a column counts bytes.
#[derive(Clone, Copy, PartialEq, Eq)]
pub struct Place {
    pub line: u32,
    pub col: u32,
}
