ghost use Rattle.std.specs.Prelude.{◌≢◌, ◌≡◌, ◌∷◌, ◌<◌, [], ◌++◌, length, IfOk, IsErrOf};
ghost use Rattle.umix_base.specs.Causes.{HasCauseIf, KeepsTelling};
ghost use Rattle.codex_values.specs.Value.{show};
ghost use Rattle.codex_values.specs.Store.{value_at};
ghost use Rattle.codex_values.specs.Writing.{Writes};
ghost use Rattle.codex_values.specs.inner.Pieces.{Opens, ArePiecesIn, IsPieceIn};

use crate::{Shape, ValueStore};
use std::alloc::{AllocFailed, Global};
use umix_base::{Failed, Sink};

/// Why a value wasn't printed whole.
#[derive(Clone, Copy, PartialEq, Eq, Debug, Drop)]
pub enum PrintFault {
    /// The sink failed.
    Write,
    /// There was no memory.
    Memory,
}

impl From<Failed> for PrintFault {
    ghost use Rattle.codex_values.specs.declared.print.PrintFault.TheVariants.{Write};

    ghost from_gives = { λ _ fault. fault ≡ Write };

    fn from(_failed: Failed) -> PrintFault {
        PrintFault::Write
    }
}

impl<T: Drop> From<AllocFailed<T>> for PrintFault {
    ghost use Rattle.codex_values.specs.declared.print.PrintFault.TheVariants.{Memory};

    ghost from_gives = { λ _ fault. fault ≡ Memory };

    fn from(_error: AllocFailed<T>) -> PrintFault {
        PrintFault::Memory
    }
}

/// What is still to be printed.
#[derive(Clone, Copy)]
enum Piece {
    Whole(usize),
    Comma,
    Close,
}

impl ValueStore {
    /// Writes the printing of the value at a place, by a stack of its own and in time linear in what
    /// it writes. After a fault a prefix of the printing was written.
    pub fn print<S: Sink>(&self, alloc: Global, at: usize, sink: &mut S) -> Result<(), PrintFault>
        requires { at < length self.now }
        ensures written { Writes (show (value_at self.now at))
            (S.written sink.old) (S.written sink.new) result }
        ensures tells { KeepsTelling (S.written sink.old) (S.written sink.new) }
        ensures cause { HasCauseIf (IsErrOf result PrintFault.Write)
            (S.faults sink.old) (S.faults sink.new) }
    {
        let mut stack = Vec::new(alloc);
        stack.push(Piece::Whole(at))?;
        while let Some(piece) = stack.pop() {
            let text = self.open(piece, &mut stack)?;
            sink.put(text)?;
        }
        Ok(())
    }

    /// Puts the parts of a piece on the stack, and gives the text that goes before them.
    fn open(&self, piece: Piece, stack: &mut Vec<Piece>) -> Result<&'static [u8], PrintFault>
        requires piece { IsPieceIn self.now piece }
        requires stack { ArePiecesIn self.now stack.old.items }
        ensures ok { IfOk result
            (λ text. Opens self.now piece stack.old.items stack.new.items text.now) }
        ensures err { result ≢ Err PrintFault.Write }
    {
        match piece {
            Piece::Comma => Ok(b","),
            Piece::Close => Ok(b")"),
            Piece::Whole(at) => match self.shape(at) {
                Shape::Unit => Ok(b"()"),
                Shape::Inl(inner) => {
                    stack.push(Piece::Whole(inner))?;
                    Ok(b"Inl ")
                }
                Shape::Inr(inner) => {
                    stack.push(Piece::Whole(inner))?;
                    Ok(b"Inr ")
                }
                Shape::Pair(left, right) => {
                    stack.push(Piece::Close)?;
                    stack.push(Piece::Whole(right))?;
                    stack.push(Piece::Comma)?;
                    stack.push(Piece::Whole(left))?;
                    Ok(b"(")
                }
            },
        }
    }
}
