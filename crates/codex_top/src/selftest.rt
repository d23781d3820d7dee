//! The command `selftest`: makes a grid from a number, and does the whole work on it.

ghost use Rattle.std.specs.Prelude.{◌≡◌, ◌≤◌, ◌+◌, ◌++◌, IfOk, codes, decimal, length};
ghost use Rattle.std.specs.Prelude.{string_bytes};
ghost use Rattle.um_word.specs.Loads.{state_in};
ghost use Rattle.two_d.specs.Meaning.{Meaning};
ghost use Rattle.two_d.specs.Program.{program_of};
ghost use Rattle.two_d.specs.Steps.{HasMeaning};
ghost use Rattle.two_d.specs.Weights.{weight};
ghost use Rattle.fire_eval.specs.Evaluation.{HasPicks};
ghost use Rattle.codex_top.specs.Headline.{IsAccepted};
ghost use Rattle.codex_top.specs.Limits.{most_made};
ghost use Rattle.codex_top.specs.Outside.{told, IsStreamCounted};
ghost use Rattle.codex_top.specs.SelftestCommand.{Found, SelftestEnds, run_alone};
ghost use Rattle.codex_top.specs.inner.Selftests.{AreCounts, AreNumbers, AreOrders, ComesToText};

use crate::check::count_boxes;
use crate::end::{End, Finish};
use crate::sending::send;
use crate::starting::start;
use crate::words::MOST_MADE;
use codex_gen::{generate, list_words};
use fire_eval::{EvalFault, Picks, eval};
use lower_link::{Linked, compile};
use module_table::{CheckFault, check};
use std::alloc::Global;
use two_d::Program;
use um_machine::Stop;
use umix_base::{Memory, Sink, SureSource, TextSink};

/// How many boxes fired and how many instances were made in an evaluation.
#[derive(Drop)]
struct Counts {
    firings: u64,
    instances: u64,
}

/// The counts with the first ready event, with the last one, and with those of a list.
#[derive(Drop)]
struct Orders {
    first: Counts,
    last: Counts,
    listed: Counts,
}

/// What the run of a scroll came to: the cycles until it halted, and the bytes that it wrote.
#[derive(Drop)]
struct Ran {
    cycles: u64,
    bytes: usize,
}

/// The numbers that `selftest` tells.
#[derive(Drop)]
struct Numbers {
    bytes: usize,
    modules: usize,
    boxes: usize,
    orders: Orders,
    words: usize,
    ran: Ran,
}

/// Makes the grid of a number, checks, evaluates in three orders and compiles it, runs the scroll, and
/// writes what was found. See "What `selftest` tells" in docs/GENERATED.md.
pub fn selftest<O: Sink>(alloc: Global, number: u64, out: &mut O) -> End
    ensures ends { SelftestEnds number (told O.Sink out.old) (told O.Sink out.new) result }
    ensures counted { IsStreamCounted (told O.Sink out.old) (told O.Sink out.new) }
{
    let numbers = find(alloc, number)?;
    let orders = &numbers.orders;
    let head = line(alloc, "selftest ", number, "\n")?;
    let grid = grid_line(alloc, numbers.bytes, numbers.modules, numbers.boxes)?;
    let first = counts_line(alloc, "first ", &orders.first)?;
    let last = counts_line(alloc, "last ", &orders.last)?;
    let list = counts_line(alloc, "list ", &orders.listed)?;
    let text = line(alloc, "text ", numbers.ran.bytes as u64, " bytes\n")?;
    let scroll = line(alloc, "scroll ", numbers.words as u64, " words\n")?;
    let run = line(alloc, "run ", numbers.ran.cycles, " cycles\n")?;
    let pieces = [
        head.as_bytes(),
        grid.as_bytes(),
        first.as_bytes(),
        last.as_bytes(),
        list.as_bytes(),
        text.as_bytes(),
        scroll.as_bytes(),
        run.as_bytes(),
        b"ok\n",
    ];
    send(out, &pieces)?;
    Ok(Finish::Done)
}

// the numbers of what is found from a number
fn find(alloc: Global, number: u64) -> Result<Numbers, Memory>
    ensures { IfOk result (λ numbers. (found : Found number) × AreNumbers number found numbers) }
{
    let grid = generate(alloc, number)?;
    let program = accepted(alloc, &grid)?;
    let orders = in_three_orders(alloc, number, &program)?;
    let Linked { words, blocks: _ } = compile(alloc, &program)?;
    Ok(Numbers {
        bytes: grid.len(),
        modules: program.modules().len(),
        boxes: count_boxes(&program),
        orders,
        words: words.len(),
        ran: run_text(alloc, words, MOST_MADE)?,
    })
}

// the program of a text that has one
fn accepted(alloc: Global, text: &[u8]) -> Result<Program, Memory>
    requires { IsAccepted text.now }
    ensures program { IfOk result (λ program. program_of text.now (Ok program)) }
    ensures weighs { IfOk result (λ program. weight program ≤ length text.now) }
{
    match check(alloc, text) {
        Ok(program) => Ok(program),
        Err(CheckFault::Bad { .. }) => unreachable!(),
        Err(CheckFault::Memory) => Err(Memory),
    }
}

// what the evaluations by the first ready event, by the last, and by the list of the number come to
fn in_three_orders(alloc: Global, number: u64, program: &Program) -> Result<Orders, Memory>
    ensures { IfOk result (λ orders. (r : Meaning) → HasMeaning program.now r
        → r.firings + r.instances ≤ most_made → AreOrders r orders) }
{
    let first = count(alloc, program, &Picks::First, MOST_MADE)?;
    let last = count(alloc, program, &Picks::Last, MOST_MADE)?;
    let list = Picks::List(list_words(alloc, number)?);
    let listed = count(alloc, program, &list, MOST_MADE)?;
    Ok(Orders {
        first,
        last,
        listed,
    })
}

// what the evaluation by these picks comes to, where so many events are enough
fn count(alloc: Global, program: &Program, picks: &Picks, events: u64) -> Result<Counts, Memory>
    requires picks { HasPicks picks.now }
    requires events { events ≤ most_made }
    ensures { IfOk result (λ counts. (r : Meaning) → HasMeaning program.now r
        → r.firings + r.instances ≤ events → AreCounts r counts) }
{
    match eval(alloc, program, picks, events) {
        Ok(report) => Ok(Counts {
            firings: report.firings,
            instances: report.instances,
        }),
        Err(EvalFault::EmptyPicks) => unreachable!(),
        Err(EvalFault::Memory) => Err(Memory),
    }
}

// runs words that come to a short text within so many cycles, on no input
fn run_text(alloc: Global, words: Vec<u32>, cycles: u64) -> Result<Ran, Memory>
    requires comes { ComesToText words.items cycles }
    requires cycles { cycles ≤ most_made }
    ensures cycles { IfOk result
        (λ ran. ran.cycles ≡ (state_in (run_alone words.items cycles)).cycles) }
    ensures bytes { IfOk result
        (λ ran. ran.bytes ≡ length (state_in (run_alone words.items cycles)).out) }
{
    let Ok(mut machine) = start(alloc, words) else {
        return Err(Memory);
    };
    let mut nothing = SureSource::new(Vec::new(alloc));
    let mut text = TextSink::new(alloc)?;
    let stop = machine.run(&mut nothing, &mut text, cycles);
    let bytes = text.bytes().len();
    match stop {
        Stop::Halted => Ok(Ran {
            cycles: machine.cycles(),
            bytes,
        }),
        Stop::Memory => Err(Memory),
        _ => unreachable!(),
    }
}

// a line of a name, a number and what it counts
fn line(alloc: Global, name: &str, number: u64, counted: &str) -> Result<String, Memory>
    ensures { IfOk result
        (λ line. string_bytes line ≡ name.now ++ (decimal number ++ counted.now)) }
{
    Ok(format!(in alloc; "{name}{number}{counted}")?)
}

// the line of the grid
fn grid_line(alloc: Global, bytes: usize, modules: usize, boxes: usize) -> Result<String, Memory>
    ensures { IfOk result (λ line. string_bytes line ≡ codes "grid " ++ (decimal bytes
        ++ (codes " bytes, " ++ (decimal modules
        ++ (codes " modules, " ++ (decimal boxes ++ codes " boxes\n")))))) }
{
    Ok(format!(in alloc; "grid {bytes} bytes, {modules} modules, {boxes} boxes\n")?)
}

// the line of an evaluation
fn counts_line(alloc: Global, name: &str, counts: &Counts) -> Result<String, Memory>
    ensures { IfOk result (λ line. string_bytes line ≡ name.now ++ (decimal counts.now.firings
        ++ (codes " firings, " ++ (decimal counts.now.instances ++ codes " instances\n")))) }
{
    let firings = counts.firings;
    let instances = counts.instances;
    Ok(format!(in alloc; "{name}{firings} firings, {instances} instances\n")?)
}
