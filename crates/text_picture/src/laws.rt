ghost use Rattle.std.specs.Prelude.{ℕ, List, ◌≤◌, ◌<◌, ◌^◌, All, length};
ghost use Rattle.umix_base.specs.declared.place.Place.{Place as At};
ghost use Rattle.text_picture.specs.Pictures.{picture_lines};

/// No line of a picture has more than 100 columns.
pub fn lines_are_short()
    ensures { (text : List ℕ) (mark : At) → mark.row < 2 ^ 32 →
        All (λ line. length line ≤ 100) (picture_lines text mark) }
{}
