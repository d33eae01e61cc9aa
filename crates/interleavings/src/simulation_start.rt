//! The simulation at its start: cells at their starting values, each thread named and after its local start.
ghost use Rattle.std.specs.Prelude.{◌≡◌, ◌≤◌, ◌<◌, ℕ, [], List, IfOk, OnOk, length, map, slice_index, slice_index_or};
ghost use Rattle.std.specs.List.{range_with_len};
ghost use Rattle.stride_isa.specs.Listing.{cell_count, starts_of};
ghost use Rattle.sc_machine.specs.StandingThread.{started_at};
ghost use Rattle.interleavings.specs.AtomicStep.{SharedWord};
ghost use Rattle.interleavings.specs.CoreShows.{ShowsState, HasSameShape};
ghost use Rattle.interleavings.specs.SimulationShows.{CanDraw, IsStartCore, Shows};
ghost use Rattle.interleavings.specs.History.{after, newcomer, start_words};
ghost use Rattle.interleavings.specs.Layout.{index_of, row_length, IsInRow};
ghost use Rattle.interleavings.specs.Driving.{begun, draws};

use crate::activity::{Activity, Phase};
use crate::core_state::Core;
use crate::kind::Kind;
use crate::layout::Layout;
use crate::simulation::Simulation;
use crate::step_words::AtomicStep;
use sc_machine::StandingThread;
use std::alloc::{AllocError, Global};
use std::collections::LinkedList;
use stride_base::NoMemory;
use stride_isa::Checked;
use stride_isa::limits::FUEL_LIMIT;

// The row of the words at the start: the cells' starting values, and otherwise 0.
fn starting_words(alloc: Global, program: &Checked, layout: Layout) -> Result<Vec<u64>, AllocError>
    requires { layout.cells ≡ cell_count program.now.decls }
    ensures whole { IfOk result (λ words. length words.items ≡ row_length layout.cells layout.monitors) }
    ensures starts { IfOk result (λ words. (word : SharedWord) → IsInRow layout.cells layout.monitors word → slice_index words.items (index_of layout.cells word) ≡ start_words (starts_of program.now.decls) word) }
{
    let mut words = vec![in alloc; 0; layout.row_length()]?;
    for cell in 0..layout.cells {
        words[layout.value_word(cell)] = program.start_of(cell);
    }
    Ok(words)
}

// Threads that have done nothing.
fn newcomers(alloc: Global, threads: u32) -> Result<Vec<Activity>, NoMemory>
    ensures count { IfOk result (λ people. length people.items ≡ threads) }
    ensures each { IfOk result (λ people. (who : ℕ) (d : Activity) → who < threads → slice_index_or people.items who d ≡ newcomer.activity) }
{
    let mut people = Vec::new(alloc);
    for _who in 0..threads {
        people.push(Activity {
            name: None,
            phase: Phase::Idle,
            events: LinkedList::new(alloc),
            held: LinkedList::new(alloc),
            looks: None,
        })?;
    }
    Ok(people)
}

// The core of a program before any step.
fn start_core(alloc: Global, program: &Checked) -> Result<Core, NoMemory>
    ensures { IfOk result (IsStartCore program.now) }
{
    let layout = Layout {
        cells: program.cells(),
        monitors: program.monitors(),
    };
    let words = starting_words(alloc, program, layout)?;
    let people = newcomers(alloc, program.threads())?;
    Ok(Core {
        layout,
        words,
        people,
    })
}

// Each thread draws its name, in order of number.
fn draw_names(core: &mut Core, threads: u32) -> Result<(), NoMemory>
    requires { CanDraw core.old threads }
    ensures shape { OnOk result (HasSameShape core.old core.new) }
    ensures shows { (starts : List ℕ) → ShowsState core.old (after starts []) → OnOk result (ShowsState core.new (after starts (draws (range_with_len 0 threads) []))) }
{
    for who in 0..threads {
        core.happen(AtomicStep {
            who,
            kind: Kind::Draw,
            at: 0,
            value: 0,
        })?;
    }
    Ok(())
}

// Each thread after its local start, in order of number.
fn start_threads<'p>(
    alloc: Global,
    program: &'p Checked,
    fuel: u32,
) -> Result<Vec<StandingThread<'p>>, NoMemory>
    requires some { 1 ≤ fuel }
    requires limit { fuel ≤ FUEL_LIMIT }
    ensures { IfOk result (λ threads. threads.items ≡ map (started_at program.now fuel) (range_with_len 0 (length program.now.threads))) }
{
    let mut threads = Vec::new(alloc);
    for number in 0..program.threads() {
        let thread = StandingThread::start(alloc, program, number, fuel)?;
        threads.push(thread)?;
    }
    Ok(threads)
}

/// The simulation at the start of a program.
pub fn start_simulation<'p>(
    alloc: Global,
    program: &'p Checked,
    fuel: u32,
    patience: u32,
) -> Result<Simulation<'p>, NoMemory>
    requires some { 1 ≤ fuel }
    requires limit { fuel ≤ FUEL_LIMIT }
    ensures { IfOk result (λ sim. Shows (record { program = program.now; fuel = fuel; patience = patience }) sim (begun (record { program = program.now; fuel = fuel; patience = patience }))) }
{
    let mut core = start_core(alloc, program)?;
    draw_names(&mut core, program.threads())?;
    let threads = start_threads(alloc, program, fuel)?;
    Ok(Simulation {
        program,
        fuel,
        patience,
        threads,
        core,
    })
}
