/// A place in a text, its row and its column counted from 1.
#[derive(Clone, Copy, PartialEq, Eq, Debug)]
pub struct Place {
    /// The row.
    pub row: u32,
    /// The column.
    pub col: u32,
}
