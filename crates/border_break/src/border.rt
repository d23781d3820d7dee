//! What the borders of a frame and of a box are made of.

ghost use Rattle.std.specs.Prelude.{◌≡◌, ◌↔◌, IsTrue};
ghost use Rattle.border_break.specs.Borders as plain;
ghost use Rattle.border_break.specs.Borders.{IsOfBottom, IsOfSide, IsOfTop};

use crate::figure::Figure;

/// The two upper corners.
pub(crate) fn upper_corner(figure: Figure) -> u8
    ensures { result ≡ plain.upper_corner figure }
{
    match figure {
        Figure::Frame => b',',
        Figure::Box => b'*',
    }
}

/// The two lower corners.
pub(crate) fn lower_corner(figure: Figure) -> u8
    ensures { result ≡ plain.lower_corner figure }
{
    match figure {
        Figure::Frame => b'\'',
        Figure::Box => b'*',
    }
}

/// Whether a byte may stand between the upper corners.
pub(crate) fn is_of_top(figure: Figure, byte: u8) -> bool
    ensures { IsTrue result ↔ IsOfTop figure byte }
{
    match figure {
        Figure::Frame => byte == b'.' || byte == b'|',
        Figure::Box => byte == b'=',
    }
}

/// Whether a byte may stand between the lower corners.
pub(crate) fn is_of_bottom(figure: Figure, byte: u8) -> bool
    ensures { IsTrue result ↔ IsOfBottom figure byte }
{
    match figure {
        Figure::Frame => byte == b'.',
        Figure::Box => byte == b'=',
    }
}

/// Whether a byte may stand between the left corners, and between the right ones.
pub(crate) fn is_of_side(figure: Figure, byte: u8) -> bool
    ensures { IsTrue result ↔ IsOfSide figure byte }
{
    match figure {
        Figure::Frame => byte == b':' || byte == b'-',
        Figure::Box => byte == b'!',
    }
}
