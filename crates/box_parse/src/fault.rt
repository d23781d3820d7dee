/// Why a text is no command. Places count bytes from 0. docs/GRID.md, "Refusals of commands".
#[derive(Clone, Copy, PartialEq, Eq, Debug, Drop)]
pub enum BoxFault {
    /// The text up to this place can still become a command, and one byte more can't.
    Bad(usize),
    /// The token at this place opens a 65th level.
    TooDeep(usize),
    /// There was no memory.
    Memory,
}
