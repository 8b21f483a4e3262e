// The rounds on the machine's parts. A step here makes none of the tests for 1 to 4: the check has made them for every record, and a machine
// that was good stays so.

ghost use Rattle.std.specs.Prelude.{◌≡◌};
ghost use Rattle.run.specs.Code.{Starts, RacedTo, StandsAt, Strode, kind_there, followed_to};

use crate::chart::Chart;
use flags::Flags;
use refusal::Refusal;
use setup::Setup;
use waiting::Waiting;

// Where the rounds stopped: why a step was refused, if one was; the place of the record there; the steps done; what waits.
#[derive(Clone, Copy)]
pub struct Raced {
    pub refused: Option<Refusal>,
    pub place: usize,
    pub count: u32,
    pub waiting: Waiting,
}

// A step that was done: the place after it, the kind there by its byte (`kinds::record_from` says why), and what waits.
#[derive(Clone, Copy)]
pub struct Stride {
    pub place: usize,
    pub kind: u8,
    pub waiting: Waiting,
}

// From a place on, to a step that is refused, to where no record is, or to the end of the budget.
pub fn race(
    registers: &mut [u32; 16],
    flags: &mut Flags,
    start: Waiting,
    from: usize,
    chart: &Chart,
    memory: &mut [u8],
    setup: Setup,
    budget: u32,
) -> Raced
    requires { Starts registers.old flags.old start from chart.now.listing.now chart.now.base memory.old setup }
    ensures { RacedTo result registers.new flags.new memory.new registers.old flags.old start memory.old chart.now.listing.now chart.now.base setup budget }
{
    let mut waiting = start;
    let mut place = from;
    let mut kind = kind_at(chart.listing, from);
    for count in 0..budget {
        if kind == 0x17 {
            return Raced {
                refused: None,
                place,
                count,
                waiting,
            };
        }
        match take(registers, flags, waiting, place, kind, chart, memory, setup) {
            Ok(made) => {
                waiting = made.waiting;
                place = made.place;
                kind = made.kind;
            }
            Err(refusal) => {
                return Raced {
                    refused: Some(refusal),
                    place,
                    count,
                    waiting,
                };
            }
        }
    }
    Raced {
        refused: None,
        place,
        count: budget,
        waiting,
    }
}

// The step of the record at a place.
fn take(
    registers: &mut [u32; 16],
    flags: &mut Flags,
    waiting: Waiting,
    place: usize,
    kind: u8,
    chart: &Chart,
    memory: &mut [u8],
    setup: Setup,
) -> Result<Stride, Refusal>
    requires { StandsAt registers.old flags.old waiting place kind chart.now.listing.now chart.now.base memory.old setup }
    ensures { Strode result registers.new flags.new memory.new registers.old flags.old waiting place memory.old chart.now.listing.now chart.now.base setup }
{
    let next = place + kinds::listing_length_of(kind) as usize;
    let r = &chart.listing[place..next];
    let ahead = pace::ahead_of(registers, r);
    pace::obey(registers, flags, waiting, ahead, r, memory, setup)?;
    let after = pace::waiting_after(waiting, r);
    let to = follow(registers, after, ahead, next, chart);
    Ok(Stride {
        place: to,
        kind: kind_at(chart.listing, to),
        waiting: after,
    })
}

// The kind at a place, by its byte (`kinds::record_from` says why); that of a filler where there is none to step.
#[tactic(auto, unfolding(crate::specs::Code::kind_there))]
fn kind_at(listing: &[u8], place: usize) -> u8
    ensures { result ≡ kind_there listing.now place }
{
    if place < listing.len() {
        return listing[place];
    }
    0x17
}

// The place after a step: that of the next record, or what is looked up.
#[tactic(auto, unfolding(crate::specs::Code::followed_to))]
fn follow(registers: &[u32; 16], waiting: Waiting, ahead: u32, next: usize, chart: &Chart) -> usize
    ensures { result ≡ followed_to registers.now waiting ahead next chart.now.listing.now chart.now.base }
{
    let to = registers[15];
    if to == ahead {
        return next;
    }
    let length = chart.listing.len();
    crate::spot_of(crate::face(chart.find(to), waiting, length), length)
}
