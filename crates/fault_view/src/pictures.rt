//! Pictures on a page.

ghost use Rattle.std.specs.Prelude.{◌≡◌, ◌++◌, OnOk};
ghost use Rattle.fault_view.specs.Pages.{picture_part};

use std::alloc::Global;
use text_picture::picture;
use umix_base::{Memory, Place};

/// The picture of a place, where there is one.
pub(crate) fn push_picture(
    alloc: Global,
    page: &mut Vec<u8>,
    text: &[u8],
    place: Option<Place>,
) -> Result<(), Memory>
    ensures { OnOk result (page.new.items ≡ page.old.items ++ picture_part text.now place) }
{
    let Some(place) = place else {
        return Ok(());
    };
    let shown = picture(alloc, text, place)?;
    page.extend_from_slice(&shown)?;
    Ok(())
}
