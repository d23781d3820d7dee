//! What the labels of a text stand for.

ghost use Rattle.std.specs.Prelude.{◌≡◌, ℕ, List, [], ◌∷◌, Option, None, IfOk, IfErr, OnOk};
ghost use Rattle.um_asm.specs.declared.fault.AsmFault.TheVariants as fault;
ghost use Rattle.um_asm.specs.Scopes.{all_standing, definitions, lookup};
ghost use Rattle.um_asm.specs.Assembly.{said_by};
ghost use Rattle.um_asm.specs.inner.Parts.{block_read_at, said_read, unended_from, IsBehind};
ghost use Rattle.um_asm.specs.inner.Definitions.{meaning_in, Adds, known_by, named_by};

use crate::fault::AsmFault;
use crate::line::Line;
use crate::lines::first_line;
use crate::position::Position;
use crate::reading::line_at;
use std::alloc::Global;
use std::collections::HashMap;

/// What a label or a block's name stands for.
#[derive(Clone, Copy, Debug)]
pub(crate) struct Definition {
    /// The line on which it is defined.
    pub line: usize,
    /// Its place, in the scroll or in its block.
    pub place: usize,
    /// How many words the block has, if it names one.
    pub length: Option<usize>,
}

/// A name in its scope: a block by the line that begins it, or none outside blocks.
#[derive(Clone, Copy, PartialEq, Eq, Hash, Debug)]
pub(crate) struct Name<'a> {
    pub scope: Option<usize>,
    pub text: &'a [u8],
}

/// The first definition of each name, and the line of a block that isn't ended.
#[derive(Drop)]
pub(crate) struct Labels<'a> {
    definitions: HashMap<Name<'a>, Definition>,
    pub unended: Option<usize>,
}

impl<'a> Labels<'a> {
    /// Reads the whole text once. Linear in the text.
    pub(crate) fn of(alloc: Global, text: &'a [u8]) -> Result<Labels<'a>, AsmFault>
        ensures meaning { IfOk result (λ labels. (scope : Option ℕ) (name : List ℕ)
            → meaning_in labels.definitions scope name
            ≡ lookup (definitions (all_standing (said_by text.now))) scope name) }
        ensures unended { IfOk result (λ labels.
            labels.unended ≡ unended_from 1 None 0 (said_by text.now)) }
        ensures err { IfErr result (λ e. e ≡ fault.Memory) }
    {
        let mut definitions = HashMap::new(alloc);
        let mut position = Position::start();
        let mut rest = text;
        while let Some((line, behind)) = first_line(rest) {
            let line = line_at(line);
            define(&mut definitions, &position, &line)?;
            position = position.after(&line);
            rest = behind;
        }
        let unended = position.scope();
        Ok(Labels {
            definitions,
            unended,
        })
    }

    /// What a name stands for in a scope.
    pub(crate) fn get(&self, scope: Option<usize>, text: &'a [u8]) -> Option<Definition>
        ensures { result ≡ meaning_in self.now.definitions scope text.now }
    {
        self.definitions.get(&Name { scope, text }).copied()
    }
}

/// Adds what is defined by this line, or by a block that ends here, unless it is defined.
fn define<'a>(
    definitions: &mut HashMap<Name<'a>, Definition>,
    position: &Position<&'a [u8]>,
    line: &Option<Line<&'a [u8]>>,
) -> Result<(), AsmFault>
    requires { IsBehind position.now.place (block_read_at position.now) }
    ensures ok { OnOk result (Adds definitions.old definitions.new
        (known_by position.now.number (block_read_at position.now) position.now.place
        (said_read line.now))) }
    ensures err { IfErr result (λ e. e ≡ fault.Memory) }
{
    match (*line, position.block) {
        (Some(Line::Code(Some(text), _)), _) => {
            let name = Name {
                scope: position.scope(),
                text,
            };
            let place = position.place_in_scope();
            let definition = Definition {
                line: position.number,
                place,
                length: None,
            };
            add(definitions, name, definition)
        }
        (Some(Line::End), Some(block)) => {
            let name = Name {
                scope: None,
                text: block.name,
            };
            let length = Some(position.place_in_scope());
            let definition = Definition {
                line: block.begun,
                place: block.first,
                length,
            };
            add(definitions, name, definition)
        }
        _ => Ok(()),
    }
}

/// Keeps the first definition of each name.
fn add<'a>(
    definitions: &mut HashMap<Name<'a>, Definition>,
    name: Name<'a>,
    definition: Definition,
) -> Result<(), AsmFault>
    ensures ok { OnOk result
        (Adds definitions.old definitions.new (named_by name.entry definition ∷ [])) }
    ensures err { IfErr result (λ e. e ≡ fault.Memory) }
{
    if !definitions.contains_key(&name) {
        definitions.insert(name, definition)?;
    }
    Ok(())
}
