//! What usually is wrong, by fault.

ghost use Rattle.std.specs.Prelude.{◌≡◌};
ghost use Rattle.two_d.specs.Faults.{TextFault, told_as};
ghost use Rattle.fault_view.specs.Hints.{hint_of};

/// The sentence for the fault with this number in the table of docs/GRID.md, "Faults".
pub(crate) fn hint_at(number: u8) -> &'static str
    ensures { (fault : TextFault) → (told_as fault).0 ≡ number → result.now ≡ hint_of fault }
{
    match number {
        1 => "A drawing has at most 262,144 bytes.",
        2 =>
            "This byte isn't printable ASCII: mostly a tab, or a letter with an accent, in a comment too.",
        3 => "A line has at most 4,096 columns.",
        4 =>
            "From this corner no frame closes: mostly a border is a cell too short, too long, or has a gap.",
        5 =>
            "This corner or its frame shares a cell with an earlier frame: frames stand side by side.",
        6 =>
            "This is a second entry: a module has one `|` in its top border and one `-` in its left border.",
        7 => "A module's name begins here, right below the corner, with a letter: a to z.",
        8 =>
            "From this corner no box closes: mostly an edge or a side is a cell too short, long, or has a gap.",
        9 =>
            "This corner or its box shares a cell with an earlier box: boxes may touch, but share no cell.",
        10 =>
            "Up to this byte the text could begin a command, and with it no longer: send, case, split or use.",
        11 => "This is a second port of this side of the box: a side has one port at most.",
        12 =>
            "A wire comes to this cell and can't go on: wires never join, turn at `+`, and cross at `#`.",
        13 => "At a `+` a wire turns to just one side; where two wires cross, draw a `#`.",
        14 =>
            "Two wires come to this cell: wires never join, and what goes to two places is sent twice.",
        15 =>
            "No wire comes to this cell. Right beside a box only a `|` below or a `-` after it begins a wire.",
        16 => "This module has the name of an earlier one: each module has a name of its own.",
        17 => "One module must have the name `main`.",
        18 =>
            "This module is `main`, which takes no input: no `|` above and no `-` on its left border.",
        19 => "This box uses a module that isn't in the file: mostly its name is misspelt.",
        20 =>
            "To a use box lead just the wires for which the module has entries: north to N and west to W.",
        21 =>
            "The command of this box names N or W, and no wire ends in a `v` above it or a `>` before it.",
        22 =>
            "This box waits for itself along its wires: draw a loop as a module that uses itself.",
        _ => "An expression has at most 64 levels: send a part of it from another box.",
    }
}
