//! Laws of machines and their images.
ghost use Rattle.std.specs.Prelude.{◌≡◌};
ghost use Rattle.um_machine.specs.MachineParts.{most_saved_cycles};
ghost use Rattle.um_image.specs.Image.{image_mark, most_image_bytes};
ghost use Rattle.um_image.specs.inner.Head.{head_length};
ghost use Rattle.um_image.specs.Laws.{ImagesTellApart, ImagesKeepRules, ImagesAreShort};
ghost use Rattle.um_image.specs.Laws.{ResumedRunsGoOn, ResumedRunsJoin};

use crate::numbers::{HEAD_LENGTH, IMAGE_MARK, MOST_IMAGE_BYTES, MOST_SAVED_CYCLES};

/// The constants are the numbers that the definitions name.
pub fn image_limits()
    ensures mark { IMAGE_MARK ≡ image_mark }
    ensures head { HEAD_LENGTH ≡ head_length }
    ensures bytes { MOST_IMAGE_BYTES ≡ most_image_bytes }
    ensures cycles { MOST_SAVED_CYCLES ≡ most_saved_cycles }
{}

/// Each image stands for exactly one machine and number of bytes taken. That each machine and
/// number within the rules has exactly one image is what `image_of` says, since it is a function.
pub fn images_tell_apart()
    ensures { ImagesTellApart }
{}

/// Bytes are the image of a machine exactly where their words keep the rules of the table.
pub fn images_keep_rules()
    ensures { ImagesKeepRules }
{}

/// No image has more bytes than `read_image` takes.
pub fn images_are_short()
    ensures { ImagesAreShort }
{}

/// To run `n` cycles, write an image, read it and run `m` cycles more on the input that is left is
/// to run `n + m` cycles.
pub fn resumed_runs_go_on()
    ensures { ResumedRunsGoOn }
{}

/// And where the second run is saved too, both are one saved run: it may be cut at many places.
pub fn resumed_runs_join()
    ensures { ResumedRunsJoin }
{}
