// The program's whole work over slices: a listing's check and run, as text.

#![tactic(auto)]

ghost use Rattle.std.specs.Prelude.{◌≡◌};
ghost use Rattle.rehearsal.specs.Program.{program_start, program_budget, ran, run_text, text_of, place_of, stored_of, told, rehearsed};
ghost use Rattle.rehearsal.specs.Code.{page};

use machine::Machine;
use reading::Place;
use refusal::Refusal;
use setup::Setup;
use text::Text;

const LIMIT: usize = 32768;

const BASE: u32 = 0x1000;

const MEMORY_BASE: u32 = 0x2000_0000;

const MEMORY_END: u32 = 0x2000_8000;

pub const BUDGET: u32 = 1_000_000;

// The length of the text, the place of what was refused, and the stored place that the run leaves.
#[derive(Clone, Copy)]
pub struct Answer {
    pub length: usize,
    pub place: Place,
    pub stored: Option<Place>,
}

#[derive(Clone, Copy)]
pub struct Page {
    pub text: Text,
    pub place: Place,
    pub stored: Option<Place>,
}

// With the budget of paper 01.
pub fn rehearse(listing: &[u8], room: &mut [u8]) -> Answer
    ensures { told result room.new ≡ rehearsed program_budget listing.now room.old }
{
    rehearse_within(BUDGET, listing, room)
}

// Puts the text in the room if it fits there.
#[tactic(auto, unfolding(crate::specs::Program::laid, crate::specs::Program::rehearsed))]
pub fn rehearse_within(budget: u32, listing: &[u8], room: &mut [u8]) -> Answer
    ensures { told result room.new ≡ rehearsed budget listing.now room.old }
{
    let page = page_of(budget, listing);
    let text = page.text.as_slice();
    let length = text.len();
    if length <= room.len() {
        room[..length].copy_from_slice(text);
    }
    Answer {
        length,
        place: page.place,
        stored: page.stored,
    }
}

#[tactic(auto, unfolding(crate::specs::Program::text_of, crate::specs::Program::text_after, crate::specs::Program::place_of, crate::specs::Program::place_after, crate::specs::Program::stored_of, crate::specs::Program::stored_after))]
fn page_of(budget: u32, listing: &[u8]) -> Page
    ensures { result ≡ (let xs = listing.now in page (text_of budget xs) (place_of budget xs) (stored_of budget xs)) }
{
    if LIMIT < listing.len() {
        return Page {
            text: text::lines::check_text_of(u32::from(Refusal::Unfit), 0),
            place: Place(0),
            stored: None,
        };
    }
    match listing::check(listing, BASE) {
        Ok(()) => run_page_of(budget, listing),
        Err(misfit) => Page {
            text: text::lines::check_text_of(u32::from(misfit.refusal), misfit.place.0),
            place: misfit.place,
            stored: None,
        },
    }
}

fn run_page_of(budget: u32, listing: &[u8]) -> Page
    ensures { result ≡ (let after = ran budget listing.now in page (run_text after) after.place.0 after.running.stored) }
{
    let mut memory = [0u8; 32768];
    let setup = Setup::new(MEMORY_BASE);
    let halted = run::begin(start_of(), listing, BASE, &mut memory, setup, budget);
    let after = halted.running.machine;
    Page {
        text: text::lines::end_text_of(
            halted.end.number(),
            halted.count,
            after.registers,
            after.flags,
        ),
        place: halted.end.place(),
        stored: halted.running.stored,
    }
}

#[tactic(auto, unfolding(crate::specs::Program::program_start))]
fn start_of() -> Machine
    ensures { result ≡ program_start }
{
    Machine::new()
        .write(Machine::SP, MEMORY_END)
        .write(Machine::PC, BASE)
}
