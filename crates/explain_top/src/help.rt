//! The help text.

ghost use Rattle.std.specs.Prelude.{◌≡◌};
ghost use Rattle.explain_top.specs.Help.{help_text};

/// The words of both programs. Takes no memory.
pub fn help() -> &'static str
    ensures { result.now ≡ help_text }
{
    "explain shows a person what a file is, and where its fault is. codex does the work.

explain grid FILE    shows the drawing in FILE around its fault, and says what is wrong
explain stuck FILE   evaluates the program in FILE, and shows the boxes where it is stuck
explain asm FILE     lists the assembly text in FILE with its words, or shows its fault
explain help         this text

codex check FILE              whether the drawing in FILE is a program
codex eval FILE [PICKS [N]]   the outcome of its program, after N events at most
codex trace FILE PICKS N      the same, with a line for each event
codex compile FILE OUT        a scroll of the program, under OUT
codex run FILE [N]            runs the scroll in FILE for N cycles at most
codex asm FILE OUT            the scroll of the assembly text in FILE, under OUT
codex dis FILE                the scroll in FILE as an assembly text
codex debug FILE INPUT        a session on the scroll in FILE, whose input is in INPUT
codex selftest N              makes the program of a number, checks, evaluates, compiles and runs it
codex draw FILE               draws the program in FILE anew, in one layout
codex type FILE SHEET         the program in FILE against the sheet of types in SHEET
codex save FILE N OUT         runs N cycles at most, and writes the machine's image under OUT
codex resume FILE N           goes on from the image in FILE for N cycles at most

docs/EXPLAIN.md and docs/COMMANDS.md tell the rest.
"
}
