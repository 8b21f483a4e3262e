// The run of a listing: its steps repeated, within a budget. The running machine has the place of the record at R15 beside it.

#![tactic(auto)]

ghost use Rattle.std.specs.Prelude.{true, ◌≡◌, length};
ghost use Rattle.listing.specs.Check.{checked};
ghost use Rattle.setup.specs.Setup.{fits};
ghost use Rattle.machine.specs.Machine.{PC, held, good};
ghost use Rattle.run.specs.Run.{rehearsal, state, rounds, run_of, ending, outcome};
ghost use Rattle.run.specs.Place.{fresh_run, resumed, halting, halt};
ghost use Rattle.refusal.specs.Refusal.{number};
ghost use Rattle.run.specs.Ended.{end_number, end_place, as_ran, as_halted};
ghost use Rattle.run.specs.Code.{seat, seat_at, seen_from, facing, used_up_at, spot, arrived, set_out, proceeded};

mod chart;
mod race;
mod seat;

use chart::Chart;
use machine::Machine;
use reading::Place;
use refusal::Refusal;
use seat::Seat;
use setup::Setup;
use waiting::Waiting;

// Why a run ended.
#[derive(Clone, Copy, Debug, PartialEq, Eq)]
pub enum End {
    // at the end address, with nothing waiting
    AtEnd,
    // by the tests before the run, by the check, or at a step: then the place is the record's
    Refused(Refusal, Place),
    // no record stands there, nor is it the end
    Nowhere,
    // the budget is spent
    UsedUp,
}

impl End {
    // The number that paper 01 gives it.
    pub fn number(self) -> u32
        ensures { result ≡ end_number self }
    {
        match self {
            End::AtEnd => 0,
            End::Refused(refusal, _) => u32::from(refusal),
            End::Nowhere => 8,
            End::UsedUp => 10,
        }
    }

    // 0 where nothing is refused.
    pub fn place(self) -> Place
        ensures { result ≡ end_place self }
    {
        match self {
            End::Refused(_, place) => place,
            End::AtEnd | End::Nowhere | End::UsedUp => Place(0),
        }
    }
}

// How a run ended, the count of the steps done, and the machine after them.
#[derive(Clone, Copy)]
pub struct Ran {
    pub end: End,
    pub count: u32,
    pub machine: Machine,
}

// The place stored beside a machine is that of the record at R15, the listing's length at the end address, or none.
#[derive(Clone, Copy)]
pub struct Running {
    pub machine: Machine,
    pub stored: Option<Place>,
}

// The same of a running machine.
#[derive(Clone, Copy)]
pub struct Halted {
    pub end: End,
    pub count: u32,
    pub running: Running,
}

// What a machine faces.
#[derive(Clone, Copy)]
pub enum Sight {
    AtRecord(Place),
    AtEnd,
    AtNone,
}

pub fn run(
    machine: Machine,
    listing: &[u8],
    base: u32,
    memory: &mut [u8],
    setup: Setup,
    budget: u32,
) -> Ran
    ensures { ending (as_ran result) memory.new ≡ outcome (run_of budget (rehearsal listing.now base setup) (state machine memory.old)) }
{
    let halted = begin(machine, listing, base, memory, setup, budget);
    Ran {
        end: halted.end,
        count: halted.count,
        machine: halted.running.machine,
    }
}

// A fresh run.
pub fn begin(
    machine: Machine,
    listing: &[u8],
    base: u32,
    memory: &mut [u8],
    setup: Setup,
    budget: u32,
) -> Halted
    ensures { halting (as_halted result) memory.new ≡ halt (fresh_run budget (rehearsal listing.now base setup) (state machine memory.old)) }
{
    let running = Running {
        machine,
        stored: None,
    };
    proceed(running, true, listing, base, memory, setup, budget)
}

// A run from a machine whose stored place has to be that of R15.
pub fn resume(
    running: Running,
    listing: &[u8],
    base: u32,
    memory: &mut [u8],
    setup: Setup,
    budget: u32,
) -> Halted
    ensures { halting (as_halted result) memory.new ≡ halt (resumed budget (rehearsal listing.now base setup) (state running.machine memory.old) running.stored) }
{
    proceed(running, false, listing, base, memory, setup, budget)
}

#[tactic(auto, unfolding(crate::specs::Code::proceeded, crate::specs::Place::halt))]
fn proceed(
    running: Running,
    anew: bool,
    listing: &[u8],
    base: u32,
    memory: &mut [u8],
    setup: Setup,
    budget: u32,
) -> Halted
    ensures { halting (as_halted result) memory.new ≡ halt (proceeded anew budget (rehearsal listing.now base setup) (state running.machine memory.old) running.stored) }
{
    if running.machine.is_good() & setup::is_fit(memory, setup) {
        return match listing::check(listing, base) {
            Ok(()) => go(running, anew, listing, base, memory, setup, budget),
            Err(misfit) => stop(misfit.refusal, misfit.place, running),
        };
    }
    stop(Refusal::Unfit, Place(0), running)
}

// A run without a step.
fn stop(refusal: Refusal, place: Place, running: Running) -> Halted
    ensures { as_halted result ≡ record { number = number refusal; place = place; count = 0; running = running } }
{
    Halted {
        end: End::Refused(refusal, place),
        count: 0,
        running,
    }
}

// A run of an accepted listing. Its tables stay out of the frame in which the listing is checked.
#[inline(never)]
fn go(
    running: Running,
    anew: bool,
    listing: &[u8],
    base: u32,
    memory: &mut [u8],
    setup: Setup,
    budget: u32,
) -> Halted
    requires { ((checked listing.now base).number ≡ 0) × (good running.machine ≡ true) × (fits setup memory.old ≡ true) }
    ensures { halting (as_halted result) memory.new ≡ halt (set_out anew budget (rehearsal listing.now base setup) (state running.machine memory.old) running.stored) }
{
    let mut addresses = [0u32; 32769];
    let mut places = [0u32; 32769];
    let count = landing::list_all(listing, base, &mut addresses, &mut places);
    let chart = Chart {
        listing,
        base,
        addresses: &addresses,
        places: &places,
        count,
    };
    let at = chart.find(running.machine.register(Machine::PC));
    if anew | (running.stored == at.stored) {
        return repeat(running.machine, at, &chart, memory, setup, budget);
    }
    stop(Refusal::Unfit, Place(0), running)
}

// The rounds, to the end of the run or of the budget: registers and flags are lent to them.
fn repeat(
    machine: Machine,
    seat: Seat,
    chart: &Chart,
    memory: &mut [u8],
    setup: Setup,
    budget: u32,
) -> Halted
    requires { (seat ≡ seat_at chart.now.listing.now chart.now.base (held machine PC)) × (good machine ≡ true) × (fits setup memory.old ≡ true) }
    ensures { halting (as_halted result) memory.new ≡ (let h = rehearsal chart.now.listing.now chart.now.base setup in halt (arrived h (rounds budget h (state machine memory.old)))) }
{
    let length = chart.listing.len();
    let place = spot_of(face(seat, machine.waiting, length), length);
    let mut registers = machine.registers;
    let mut flags = machine.flags;
    let raced = race::race(
        &mut registers,
        &mut flags,
        machine.waiting,
        place,
        chart,
        memory,
        setup,
        budget,
    );
    let after = Machine {
        registers,
        flags,
        waiting: raced.waiting,
    };
    let at = chart.find(registers[15]);
    match raced.refused {
        Some(refusal) => halt(
            End::Refused(refusal, Place(raced.place)),
            raced.count,
            after,
            at,
        ),
        None => {
            let end = used_up_of(face(at, raced.waiting, length));
            halt(end, raced.count, after, at)
        }
    }
}

fn halt(end: End, count: u32, machine: Machine, seat: Seat) -> Halted
    ensures { result ≡ record { end = end; count = count; running = record { machine = machine; stored = seat.stored } } }
{
    Halted {
        end,
        count,
        running: Running {
            machine,
            stored: seat.stored,
        },
    }
}

// What is seen from a seat, with these conditions waiting.
#[tactic(auto, unfolding(crate::specs::Code::facing))]
fn face(seat: Seat, waiting: Waiting, length: usize) -> Sight
    ensures { result ≡ facing seat waiting length }
{
    if waiting.is_same(seat.due) {
        return sight_of(seat.stored, length);
    }
    Sight::AtNone
}

#[tactic(auto, unfolding(crate::specs::Code::seen_from))]
fn sight_of(stored: Option<Place>, length: usize) -> Sight
    ensures { result ≡ seen_from stored length }
{
    match stored {
        Some(place) => {
            if place.0 == length {
                return Sight::AtEnd;
            }
            Sight::AtRecord(place)
        }
        None => Sight::AtNone,
    }
}

#[tactic(auto, unfolding(crate::specs::Code::used_up_at))]
fn used_up_of(seen: Sight) -> End
    ensures { (end_number result ≡ used_up_at seen) × (end_place result ≡ record { 0 = 0 }) }
{
    match seen {
        Sight::AtRecord(_) => End::UsedUp,
        Sight::AtEnd => End::AtEnd,
        Sight::AtNone => End::Nowhere,
    }
}

// The place of the record that is seen; the listing's length where there is none.
#[tactic(auto, unfolding(crate::specs::Code::spot))]
fn spot_of(seen: Sight, length: usize) -> usize
    ensures { result ≡ spot seen length }
{
    match seen {
        Sight::AtRecord(place) => place.0,
        Sight::AtEnd | Sight::AtNone => length,
    }
}
