ghost use Rattle.std.specs.Prelude.{◌≡◌, ℕ, ◌+◌, ◌*◌, ◌<◌, ◌≤◌, ◌^◌, length, All, IfOk, OnOk};
ghost use Rattle.two_d.specs.Programs.{Program};
ghost use Rattle.lower_link.specs.inner.Boot.{boot_code, IsLinked};
ghost use Rattle.lower_link.specs.inner.Drafts.{DraftAdds};
ghost use Rattle.lower_link.specs.Follows.{AreBlocks};
ghost use Rattle.lower_link.specs.inner.Linking.{words_of_blocks, spans, words_of_block};
ghost use Rattle.lower_link.specs.inner.Made.{places_of};

use crate::draft::Draft;
use code_templates::{call_block, copy_block, make_table};
use std::alloc::Global;
use umix_base::Memory;

/// A scroll, and the place and the length in it of each module's block, in the order of their
/// numbers, and then of the printer's. See "The scroll" in docs/COMPILED.md.
#[derive(Debug, Drop)]
pub struct Linked {
    pub words: Vec<u32>,
    pub blocks: Vec<(u32, u32)>,
}

/// The places and lengths of blocks of which the first stands at a place, and each behind the one
/// before it.
fn spans_of(alloc: Global, blocks: &Vec<Vec<u32>>, first: usize) -> Result<Vec<(u32, u32)>, Memory>
    requires small { first + length (words_of_blocks blocks.now.items) < 2 ^ 25 }
    ensures { IfOk result (λ places. places.items ≡ spans first blocks.now.items) }
{
    let mut places = Vec::new(alloc);
    let mut place = first;
    for block in blocks {
        places.push((place as u32, block.len() as u32))?;
        place += block.len();
    }
    Ok(places)
}

/// Adds the boot: it copies the blocks into arrays of their own, and calls that of `main` in a
/// frame of this size. `main` returns to the last block, the printer's.
fn put_boot(
    draft: &mut Draft,
    blocks: &Vec<(u32, u32)>,
    main: usize,
    frame: u32,
) -> Result<(), Memory>
    requires small { All (λ block. (block.0 < 2 ^ 25) × (block.1 < 2 ^ 25)) blocks.now.items }
    requires few { 1 ≤ length blocks.now.items }
    requires many { 23 + 14 * length blocks.now.items < 2 ^ 25 }
    requires main { main < 2 ^ 25 }
    requires frame { frame < 2 ^ 25 }
    ensures { OnOk result ((modules : ℕ) → modules + 1 ≡ length blocks.now.items →
        DraftAdds draft.old draft.new (boot_code (places_of blocks.now.items) modules main frame)) }
{
    let count = blocks.len() as u32;
    draft.put(&make_table(), [count, 0, 0, 0, 0, 0, 0, 0])?;
    // where the next copy stands in the words
    let mut at = 2;
    let mut number = 0;
    for (place, size) in blocks {
        draft.put(
            &copy_block(),
            [*size, number, *place, at + 3, at + 12, 0, 0, 0],
        )?;
        number += 1;
        at += 14;
    }
    draft.put(
        &call_block(),
        [0, 0, main as u32, frame, count - 1, 0, 0, 0],
    )
}

/// The scroll of these blocks, of which the last is the printer's: the boot, and behind it the
/// blocks.
pub(crate) fn link(
    alloc: Global,
    blocks: &Vec<Vec<u32>>,
    main: usize,
    frame: u32,
) -> Result<Linked, Memory>
    requires some { All (λ block. 1 ≤ length block.items) blocks.now.items }
    requires many { 1 ≤ length blocks.now.items }
    requires small { 23 + 14 * length blocks.now.items + length
        (words_of_blocks blocks.now.items) < 2 ^ 25 }
    requires main { main < 2 ^ 25 }
    requires frame { frame < 2 ^ 25 }
    ensures linked { IfOk result (λ linked. (modules : ℕ) → modules + 1 ≡ length blocks.now.items →
        IsLinked (words_of_block blocks.now.items)
        (places_of linked.blocks.items) modules main frame linked.words.items) }
    ensures apart { IfOk result (λ linked. (P : Program) → length P + 1 ≡ length blocks.now.items →
        AreBlocks P linked.words.items linked.blocks.items) }
    ensures size { IfOk result (λ linked. length linked.words.items ≡ 23 + 14 * length
        blocks.now.items + length (words_of_blocks blocks.now.items)) }
{
    let places = spans_of(alloc, blocks, 23 + 14 * blocks.len())?;
    let mut draft = Draft::new(alloc);
    put_boot(&mut draft, &places, main, frame)?;
    for block in blocks {
        draft.words.extend_from_slice(block.as_slice())?;
    }
    Ok(Linked {
        words: draft.words,
        blocks: places,
    })
}
