ghost use Rattle.std.specs.Prelude.{◌≡◌, ◌+◌, ◌*◌, ◌<◌, ◌≤◌, [], ◌∷◌, ◌++◌, Some, length};
ghost use Rattle.std.specs.Prelude.{codes, decimal, IfOk, OnOk};
ghost use Rattle.two_d.specs.Programs.{BoxForm, box_at};
ghost use Rattle.two_d.specs.Texts.{name_at, HasBox};
ghost use Rattle.lower_link.specs.inner.Drafts.{AddsTexts, AreTextsOf};
ghost use Rattle.lower_link.specs.inner.Lines.{box_line, module_lines};

use crate::draft::Draft;
use itoa::Buffer;
use std::alloc::Global;
use two_d::{Command, Program};
use umix_base::Memory;

/// Texts that are being made: the place in their code where each begins, and their code.
#[derive(Drop)]
pub(crate) struct Texts {
    pub(crate) places: Vec<usize>,
    pub(crate) code: Draft,
}

impl Texts {
    /// Adds the text of a line.
    fn add(&mut self, line: &[u8]) -> Result<(), Memory>
        ensures { OnOk result (AddsTexts self.old self.new (line.now ∷ [])) }
    {
        self.places.push(self.code.words.len())?;
        self.code.write(line)?;
        self.code.pop_work()
    }

    /// Adds the texts of a module: one for each box, one for no result, and one for two.
    fn add_module(&mut self, alloc: Global, program: &Program, number: usize) -> Result<(), Memory>
        requires { number < length program.now }
        ensures { OnOk result (AddsTexts self.old self.new (module_lines program.now number)) }
    {
        for bx in 0..program.modules()[number].boxes.len() {
            let line = text_of_box(alloc, program, number, bx)?;
            self.add(line.as_slice())?;
        }
        let none = line_of_module(alloc, program, number, b": no result\n")?;
        self.add(none.as_slice())?;
        let two = line_of_module(alloc, program, number, b": two results\n")?;
        self.add(two.as_slice())
    }
}

/// The text of a box: where it is stuck, or that it is a caller. That of a `send` is empty.
fn text_of_box(
    alloc: Global,
    program: &Program,
    number: usize,
    bx: usize,
) -> Result<Vec<u8>, Memory>
    requires { HasBox program.now (number, bx) }
    ensures { IfOk result (λ line. (row : BoxForm) → box_at program.now number bx ≡ Some row →
        line.items ≡ box_line program.now number bx row.command) }
{
    let row = &program.modules()[number].boxes[bx];
    match row.command {
        Command::Send(_) => Ok(Vec::new(alloc)),
        Command::Case(..) => line_of_box(alloc, program, b"stuck: ", (number, bx), b": no sum\n"),
        Command::Split(_) => line_of_box(alloc, program, b"stuck: ", (number, bx), b": no pair\n"),
        Command::Call(_) => line_of_box(alloc, program, b"  in ", (number, bx), b"\n"),
    }
}

/// A line that names a box by its module and its number from 1.
fn line_of_box(
    alloc: Global,
    program: &Program,
    before: &[u8],
    place: (usize, usize),
    behind: &[u8],
) -> Result<Vec<u8>, Memory>
    requires { HasBox program.now place }
    ensures { IfOk result (λ line. line.items ≡
        before.now ++ (name_at program.now place.0 ++ codes " box " ++ decimal (place.1 + 1))
        ++ behind.now) }
{
    let owner = &program.modules()[place.0];
    prove!(place.1 < owner.boxes.len());
    let mut buffer = Buffer::new();
    let mut line = Vec::from_slice(alloc, before)?;
    line.extend_from_slice(owner.name.bytes())?;
    line.extend_from_slice(b" box ")?;
    line.extend_from_slice(buffer.format(place.1 + 1).as_bytes())?;
    line.extend_from_slice(behind)?;
    Ok(line)
}

/// A line that names a module in which no box is at fault.
fn line_of_module(
    alloc: Global,
    program: &Program,
    number: usize,
    behind: &[u8],
) -> Result<Vec<u8>, Memory>
    requires { number < length program.now }
    ensures { IfOk result (λ line. line.items ≡ codes "stuck: " ++ name_at program.now number
        ++ behind.now) }
{
    let mut line = Vec::from_slice(alloc, b"stuck: ")?;
    line.extend_from_slice(program.modules()[number].name.bytes())?;
    line.extend_from_slice(behind)?;
    Ok(line)
}

/// The texts of a program, in the order of their numbers.
pub(crate) fn texts_of(alloc: Global, program: &Program) -> Result<Texts, Memory>
    ensures { IfOk result (λ texts. AreTextsOf program.now texts) }
{
    let mut texts = Texts {
        places: Vec::new(alloc),
        code: Draft::new(alloc),
    };
    for number in 0..program.modules().len() {
        texts.add_module(alloc, program, number)?;
    }
    Ok(texts)
}
