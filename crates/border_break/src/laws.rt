//! Laws of breaks, each a function with an empty body whose contract is the law.

ghost use Rattle.std.specs.Prelude.{◌≡◌, None, Option};
ghost use Rattle.umix_base.specs.declared.place.Place.{Place};
ghost use Rattle.two_d.specs.Boxes.{IsBox, IsBoxCorner};
ghost use Rattle.two_d.specs.Cells.{Grid, cell};
ghost use Rattle.two_d.specs.Frames.{IsFrame};
ghost use Rattle.two_d.specs.Places.{Rect};
ghost use Rattle.border_break.specs.declared.figure.Break.{Break};
ghost use Rattle.border_break.specs.declared.figure.Figure.{Figure as Shape};
ghost use Rattle.border_break.specs.declared.figure.Figure.TheVariants.{Frame, Box};
ghost use Rattle.border_break.specs.Borders.{upper_corner};
ghost use Rattle.border_break.specs.Breaks.{IsBreak};

/// A frame's border breaks nowhere, and a corner whose border breaks nowhere is a frame's.
pub fn closing_frames_have_none()
    ensures none { (grid : Grid) (p : Place) (f : Rect) → IsFrame grid p f →
        IsBreak grid Frame p None }
    ensures closes { (grid : Grid) (p : Place) → cell grid p ≡ upper_corner Frame →
        IsBreak grid Frame p None → (f : Rect) × IsFrame grid p f }
{}

/// A box's border breaks nowhere, and a corner in a frame whose border breaks nowhere is a box's.
pub fn closing_boxes_have_none()
    ensures none { (grid : Grid) (f : Rect) (p : Place) (b : Rect) → IsBox grid f p b →
        IsBreak grid Box p None }
    ensures closes { (grid : Grid) (q : Place) (f : Rect) (p : Place) → IsFrame grid q f →
        IsBoxCorner grid f p → IsBreak grid Box p None → (b : Rect) × IsBox grid f p b }
{}

/// A corner has one answer.
pub fn one_break()
    ensures { (grid : Grid) (f : Shape) (p : Place) (x y : Option Break) → IsBreak grid f p x →
        IsBreak grid f p y → x ≡ y }
{}
