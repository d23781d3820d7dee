//! What the words of the command line ask for.

ghost use Rattle.std.specs.Prelude.{◌∷◌, codes, map, string_bytes};
ghost use Rattle.explain_top.specs.Words.{IsFound};

/// A job that a list of words asks for.
#[derive(Debug, Drop)]
pub enum Job<'a> {
    /// To show the drawing in this file.
    Grid { file: &'a str },
    /// To show where the program of the drawing in this file is stuck.
    Stuck { file: &'a str },
    /// To list the assembly text in this file.
    Asm { file: &'a str },
    /// To tell the words of both programs.
    Help,
}

/// The job that the words ask for, if they ask for one. Takes no memory.
pub fn job_of(words: &Vec<String>) -> Option<Job<'_>>
    ensures { IsFound (map string_bytes words.now.items) result }
{
    let [command, rest @ ..] = words.as_slice() else {
        return None;
    };
    match command.as_str() {
        "grid" => grid_of(rest),
        "stuck" => stuck_of(rest),
        "asm" => asm_of(rest),
        "help" => help_of(rest),
        _ => None,
    }
}

fn grid_of(rest: &[String]) -> Option<Job<'_>>
    ensures { IsFound (codes "grid" ∷ map string_bytes rest.now) result }
{
    match rest {
        [file] => Some(Job::Grid {
            file: file.as_str(),
        }),
        _ => None,
    }
}

fn stuck_of(rest: &[String]) -> Option<Job<'_>>
    ensures { IsFound (codes "stuck" ∷ map string_bytes rest.now) result }
{
    match rest {
        [file] => Some(Job::Stuck {
            file: file.as_str(),
        }),
        _ => None,
    }
}

fn asm_of(rest: &[String]) -> Option<Job<'_>>
    ensures { IsFound (codes "asm" ∷ map string_bytes rest.now) result }
{
    match rest {
        [file] => Some(Job::Asm {
            file: file.as_str(),
        }),
        _ => None,
    }
}

fn help_of(rest: &[String]) -> Option<Job<'_>>
    ensures { IsFound (codes "help" ∷ map string_bytes rest.now) result }
{
    match rest {
        [] => Some(Job::Help),
        _ => None,
    }
}
