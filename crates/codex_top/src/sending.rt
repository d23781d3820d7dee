//! What commands write: bytes that go out piece by piece, and files.

ghost use Rattle.std.specs.List.{flat_map};
ghost use Rattle.umix_base.specs.Causes.{HasCause, KeepsTelling};
ghost use Rattle.umix_base.specs.Streams.{Appends};
ghost use Rattle.codex_top.specs.Outside.{shelved, told, IsShelfCounted, IsStreamCounted};
ghost use Rattle.codex_top.specs.Sending.{FileWritten, IsSent, ScrollWritten, TextSent};

use crate::end::{End, Finish};
use crate::line::Line;
use std::alloc::Global;
use um_word::bytes_of;
use umix_base::{Failed, Shelf, ShelfFault, Sink};

/// Writes the pieces, in order. After `Failed` a beginning of them was written. Takes no memory.
pub fn put_all<S: Sink>(sink: &mut S, pieces: &[&[u8]]) -> Result<(), Failed>
    ensures appended { Appends (flat_map (λ piece. piece.now) pieces.now)
        (S.written sink.old) (S.written sink.new) result }
    ensures tells { KeepsTelling (S.written sink.old) (S.written sink.new) }
    ensures cause { HasCause (S.faults sink.old) (S.faults sink.new) result }
{
    for piece in pieces {
        match sink.put(piece) {
            Ok(()) => {}
            Err(Failed) => return Err(Failed),
        }
    }
    Ok(())
}

/// Writes the pieces to the output, in order, or tells that they couldn't be written. Takes no
/// memory.
pub fn send<S: Sink>(sink: &mut S, pieces: &[&[u8]]) -> Result<(), Line>
    ensures sent { IsSent (flat_map (λ piece. piece.now) pieces.now)
        (told S.Sink sink.old) (told S.Sink sink.new) result }
    ensures counted { IsStreamCounted (told S.Sink sink.old) (told S.Sink sink.new) }
{
    match put_all(sink, pieces) {
        Ok(()) => Ok(()),
        Err(Failed) => Err(Line::WriteFault),
    }
}

/// Sends the pieces as the last that a command does. Takes no memory.
pub fn send_last<S: Sink>(sink: &mut S, pieces: &[&[u8]]) -> End
    ensures ends { TextSent (flat_map (λ piece. piece.now) pieces.now)
        (told S.Sink sink.old) (told S.Sink sink.new) result }
    ensures counted { IsStreamCounted (told S.Sink sink.old) (told S.Sink sink.new) }
{
    send(sink, pieces)?;
    Ok(Finish::Done)
}

/// Writes the scroll of the words into a file.
pub fn write_scroll<F: Shelf>(alloc: Global, file: &str, words: &[u32], shelf: &mut F) -> End
    ensures ends { ScrollWritten file.now words.now
        (shelved F.Shelf shelf.old) (shelved F.Shelf shelf.new) result }
    ensures counted { IsShelfCounted (shelved F.Shelf shelf.old) (shelved F.Shelf shelf.new) }
{
    let scroll = bytes_of(alloc, words)?;
    write_file(alloc, file, &scroll, shelf)
}

/// Writes the bytes into a file.
pub fn write_file<F: Shelf>(alloc: Global, file: &str, bytes: &[u8], shelf: &mut F) -> End
    ensures ends { FileWritten file.now bytes.now
        (shelved F.Shelf shelf.old) (shelved F.Shelf shelf.new) result }
    ensures counted { IsShelfCounted (shelved F.Shelf shelf.old) (shelved F.Shelf shelf.new) }
{
    match shelf.write(alloc, file, bytes) {
        Ok(()) => Ok(Finish::Done),
        Err(ShelfFault::Failed) => Err(Line::WriteFault),
        Err(ShelfFault::Memory) => Err(Line::NoMemory),
    }
}
