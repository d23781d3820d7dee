//! What the words of the command line ask for.

ghost use Rattle.std.specs.Prelude.{ℕ, List, [], ◌∷◌, map, codes, string_bytes, IfOk, MatchOption};
ghost use Rattle.codex_top.specs.Words.{AreJoined, IsDecimal, IsPicks};
ghost use Rattle.codex_top.specs.Jobs.{IsFound};
ghost use Rattle.fire_eval.specs.Evaluation.{choice_of};
ghost use Rattle.two_d.specs.Steps.{Choice};

use fire_eval::Picks;
use itoa::Buffer;
use std::alloc::Global;
use umix_base::Memory;

/// The most cycles or events of one command, and their number where none is given: 2^62.
pub const MOST_MADE: u64 = 4_611_686_018_427_387_904;

/// A job that a list of words asks for.
#[derive(Debug, Drop)]
pub enum Job<'a> {
    /// To check the grid in this file.
    Check {
        file: &'a str,
    },
    /// To evaluate the program in this file, by these picks, for so many events at most.
    Eval {
        file: &'a str,
        picks: Picks,
        events: u64,
    },
    /// The same, and to tell each event.
    Trace {
        file: &'a str,
        picks: Picks,
        events: u64,
    },
    /// To compile the program in `file` into the file `out`.
    Compile {
        file: &'a str,
        out: &'a str,
    },
    /// To run the scroll in this file for so many cycles at most.
    Run {
        file: &'a str,
        cycles: u64,
    },
    /// To assemble the text in `file` into the file `out`.
    Asm {
        file: &'a str,
        out: &'a str,
    },
    /// To list the words of the scroll in this file.
    Dis {
        file: &'a str,
    },
    /// To debug the scroll in `file`, whose input is the file `input`.
    Debug {
        file: &'a str,
        input: &'a str,
    },
    /// To make the grid of this number, and to find what comes of it.
    Selftest {
        number: u64,
    },
    /// To draw the program in `file`.
    Draw {
        file: &'a str,
    },
    /// To check the program in `file` against the sheet of declared types in the file `sheet`.
    Types {
        file: &'a str,
        sheet: &'a str,
    },
    /// To run the scroll in `file` for so many cycles at most, and to write the image of its machine
    /// into the file `out`.
    Save {
        file: &'a str,
        cycles: u64,
        out: &'a str,
    },
    /// To run the machine of the image in this file for so many cycles more at most.
    Resume {
        file: &'a str,
        cycles: u64,
    },
}

/// The job of a list of words, or `None` exactly where it asks for none.
pub fn job_of(alloc: Global, words: &Vec<String>) -> Result<Option<Job<'_>>, Memory>
    ensures { IfOk result (IsFound (map string_bytes words.now.items)) }
{
    let [command, rest @ ..] = words.as_slice() else {
        return Ok(None);
    };
    match command.as_str() {
        "check" => Ok(check_of(rest)),
        "eval" => eval_of(alloc, rest),
        "trace" => trace_of(alloc, rest),
        "compile" => Ok(compile_of(rest)),
        "run" => Ok(run_of(rest)),
        "asm" => Ok(asm_of(rest)),
        "dis" => Ok(dis_of(rest)),
        "debug" => Ok(debug_of(rest)),
        "selftest" => Ok(selftest_of(rest)),
        "draw" => Ok(draw_of(rest)),
        "type" => Ok(types_of(rest)),
        "save" => Ok(save_of(rest)),
        "resume" => Ok(resume_of(rest)),
        _ => Ok(None),
    }
}

fn check_of(rest: &[String]) -> Option<Job<'_>>
    ensures { IsFound (codes "check" ∷ map string_bytes rest.now) result }
{
    match rest {
        [file] => Some(Job::Check {
            file: file.as_str(),
        }),
        _ => None,
    }
}

fn eval_of(alloc: Global, rest: &[String]) -> Result<Option<Job<'_>>, Memory>
    ensures { IfOk result (IsFound (codes "eval" ∷ map string_bytes rest.now)) }
{
    match rest {
        [file] => Ok(Some(Job::Eval {
            file: file.as_str(),
            picks: Picks::First,
            events: MOST_MADE,
        })),
        [file, picks] => {
            let Some(picks) = picks_of(alloc, picks.as_str())? else {
                return Ok(None);
            };
            Ok(Some(Job::Eval {
                file: file.as_str(),
                picks,
                events: MOST_MADE,
            }))
        }
        [file, picks, number] => {
            let Some(events) = number_of(number.as_str(), MOST_MADE) else {
                return Ok(None);
            };
            let Some(picks) = picks_of(alloc, picks.as_str())? else {
                return Ok(None);
            };
            Ok(Some(Job::Eval {
                file: file.as_str(),
                picks,
                events,
            }))
        }
        _ => Ok(None),
    }
}

fn trace_of(alloc: Global, rest: &[String]) -> Result<Option<Job<'_>>, Memory>
    ensures { IfOk result (IsFound (codes "trace" ∷ map string_bytes rest.now)) }
{
    let [file, picks, number] = rest else {
        return Ok(None);
    };
    let Some(events) = number_of(number.as_str(), MOST_MADE) else {
        return Ok(None);
    };
    let Some(picks) = picks_of(alloc, picks.as_str())? else {
        return Ok(None);
    };
    Ok(Some(Job::Trace {
        file: file.as_str(),
        picks,
        events,
    }))
}

fn compile_of(rest: &[String]) -> Option<Job<'_>>
    ensures { IsFound (codes "compile" ∷ map string_bytes rest.now) result }
{
    match rest {
        [file, out] => Some(Job::Compile {
            file: file.as_str(),
            out: out.as_str(),
        }),
        _ => None,
    }
}

fn run_of(rest: &[String]) -> Option<Job<'_>>
    ensures { IsFound (codes "run" ∷ map string_bytes rest.now) result }
{
    match rest {
        [file] => Some(Job::Run {
            file: file.as_str(),
            cycles: MOST_MADE,
        }),
        [file, number] => {
            let Some(cycles) = number_of(number.as_str(), MOST_MADE) else {
                return None;
            };
            Some(Job::Run {
                file: file.as_str(),
                cycles,
            })
        }
        _ => None,
    }
}

fn asm_of(rest: &[String]) -> Option<Job<'_>>
    ensures { IsFound (codes "asm" ∷ map string_bytes rest.now) result }
{
    match rest {
        [file, out] => Some(Job::Asm {
            file: file.as_str(),
            out: out.as_str(),
        }),
        _ => None,
    }
}

fn dis_of(rest: &[String]) -> Option<Job<'_>>
    ensures { IsFound (codes "dis" ∷ map string_bytes rest.now) result }
{
    match rest {
        [file] => Some(Job::Dis {
            file: file.as_str(),
        }),
        _ => None,
    }
}

fn debug_of(rest: &[String]) -> Option<Job<'_>>
    ensures { IsFound (codes "debug" ∷ map string_bytes rest.now) result }
{
    match rest {
        [file, input] => Some(Job::Debug {
            file: file.as_str(),
            input: input.as_str(),
        }),
        _ => None,
    }
}

fn selftest_of(rest: &[String]) -> Option<Job<'_>>
    ensures { IsFound (codes "selftest" ∷ map string_bytes rest.now) result }
{
    let [word] = rest else {
        return None;
    };
    let Some(number) = number_of(word.as_str(), u64::MAX) else {
        return None;
    };
    Some(Job::Selftest { number })
}

fn draw_of(rest: &[String]) -> Option<Job<'_>>
    ensures { IsFound (codes "draw" ∷ map string_bytes rest.now) result }
{
    match rest {
        [file] => Some(Job::Draw {
            file: file.as_str(),
        }),
        _ => None,
    }
}

fn types_of(rest: &[String]) -> Option<Job<'_>>
    ensures { IsFound (codes "type" ∷ map string_bytes rest.now) result }
{
    match rest {
        [file, sheet] => Some(Job::Types {
            file: file.as_str(),
            sheet: sheet.as_str(),
        }),
        _ => None,
    }
}

fn save_of(rest: &[String]) -> Option<Job<'_>>
    ensures { IsFound (codes "save" ∷ map string_bytes rest.now) result }
{
    let [file, number, out] = rest else {
        return None;
    };
    let Some(cycles) = number_of(number.as_str(), MOST_MADE) else {
        return None;
    };
    Some(Job::Save {
        file: file.as_str(),
        cycles,
        out: out.as_str(),
    })
}

fn resume_of(rest: &[String]) -> Option<Job<'_>>
    ensures { IsFound (codes "resume" ∷ map string_bytes rest.now) result }
{
    let [file, number] = rest else {
        return None;
    };
    let Some(cycles) = number_of(number.as_str(), MOST_MADE) else {
        return None;
    };
    Some(Job::Resume {
        file: file.as_str(),
        cycles,
    })
}

// the picks that a word names, or `None` exactly where it names none
fn picks_of(alloc: Global, word: &str) -> Result<Option<Picks>, Memory>
    ensures { IfOk result (λ found. MatchOption found
        ((picks : Choice) → IsPicks word.now picks → ⊥)
        (λ picks. IsPicks word.now (choice_of picks))) }
{
    if word == "first" {
        return Ok(Some(Picks::First));
    }
    if word == "last" {
        return Ok(Some(Picks::Last));
    }
    match numbers_of(alloc, word)? {
        Some(numbers) => Ok(Some(Picks::List(numbers))),
        None => Ok(None),
    }
}

// the numbers of 32 bits that a word joins by commas, or `None` exactly where it doesn't
fn numbers_of(alloc: Global, word: &str) -> Result<Option<Vec<u32>>, Memory>
    ensures { IfOk result (λ found. MatchOption found
        ((numbers : List ℕ) → AreJoined word.now numbers → ⊥)
        (λ numbers. AreJoined word.now numbers.items)) }
{
    let mut numbers = Vec::new(alloc);
    for part in word.split(',') {
        let Some(number) = number_of(part, u32::MAX as u64) else {
            return Ok(None);
        };
        numbers.push(number as u32)?;
    }
    Ok(Some(numbers))
}

// the number that a word writes in decimal, if it is at most this, or `None` exactly where it
// writes none
fn number_of(word: &str, most: u64) -> Option<u64>
    ensures { MatchOption result
        ((n : ℕ) → IsDecimal most word.now n → ⊥) (IsDecimal most word.now) }
{
    let Ok(number) = word.parse::<u64>() else {
        return None;
    };
    if number > most {
        return None;
    }
    let mut buffer = Buffer::new();
    if buffer.format(number) != word {
        return None;
    }
    Some(number)
}
