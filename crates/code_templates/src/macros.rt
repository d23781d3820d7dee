//! Rows by the operators' names.

/// A table of rows, one operator each: its name and its registers. In `set(7, [2])` the value is
/// that of hole 2.
macro_rules! rows {
    ($($op:ident ( $($arg:tt),* ) ;)*) => {
        [$(row!($op $($arg),*)),*]
    };
}

/// One row.
macro_rules! row {
    (cmov $a:literal, $b:literal, $c:literal) => { row!(@ 0, $a, $b, $c) };
    (index $a:literal, $b:literal, $c:literal) => { row!(@ 1, $a, $b, $c) };
    (amend $a:literal, $b:literal, $c:literal) => { row!(@ 2, $a, $b, $c) };
    (add $a:literal, $b:literal, $c:literal) => { row!(@ 3, $a, $b, $c) };
    (nand $a:literal, $b:literal, $c:literal) => { row!(@ 6, $a, $b, $c) };
    (halt) => { row!(@ 7, 0, 0, 0) };
    (alloc $b:literal, $c:literal) => { row!(@ 8, 0, $b, $c) };
    (out $c:literal) => { row!(@ 10, 0, 0, $c) };
    (load $b:literal, $c:literal) => { row!(@ 12, 0, $b, $c) };
    (set $a:literal, [$hole:literal]) => {
        Row { word: (13 << 28) + ($a << 25), hole: Hole::Value($hole) }
    };
    (set $a:literal, $value:literal) => {
        Row { word: (13 << 28) + ($a << 25) + $value, hole: Hole::Empty }
    };
    (@ $number:literal, $a:literal, $b:literal, $c:literal) => {
        Row { word: ($number << 28) + ($a << 6) + ($b << 3) + $c, hole: Hole::Empty }
    };
}

pub(crate) use row;
pub(crate) use rows;
