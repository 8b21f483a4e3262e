// The C functions of the stepper, on numbers and byte slices: include/simbhoket.h declares them.

#![tactic(auto)]

ghost use Rattle.std.specs.Prelude.{◌%◌, ◌^◌, ◌≡◌};
ghost use Rattle.setup.specs.Setup.{at_base};
ghost use Rattle.little.specs.Little.{byte};
ghost use Rattle.judge.specs.Judge.{judged};
ghost use Rattle.reading.specs.Reading.{read_one, read_at};
ghost use Rattle.std.specs.Prelude.{if◌then◌else◌};
ghost use Rattle.image.specs.Image.{image_of};
ghost use Rattle.listing.specs.Check.{checked};
ghost use Rattle.run.specs.Run.{rehearsal};
ghost use Rattle.run.specs.Ended.{end_number, as_halted};
ghost use Rattle.rehearsal.specs.Program.{program_budget, rehearsed};
ghost use Rattle.interface.specs.Interface.{left, image_stepped, run_left, with_answer, image_run, place_number, numbered_place, with_place, image_begun, image_resumed, text_left, text_laid, pair, measured, way_number, way_read, reported};

use flow::Way;
use machine::Machine;
use reading::Place;
use run::{Halted, Running};
use setup::Setup;

#[unsafe(no_mangle)]
pub extern "C" fn simbhoket_judge(r: &[u8], waiting: u32) -> u32
    ensures { result ≡ judged (read_one r.now) waiting }
{
    refusal::number_of(judge::judge(r, waiting))
}

#[unsafe(no_mangle)]
#[tactic(auto, unfolding(crate::specs::Interface::measured))]
pub extern "C" fn simbhoket_measure(listing: &[u8], place: usize) -> u64
    ensures { result ≡ measured (read_at listing.now place) (byte listing.now place) }
{
    let Some((found, _)) = reading::read_next(listing, Place(place)) else {
        return 0;
    };
    let size = kinds::listing_length_of(little::byte_at(listing, place));
    pair_of(size as u32, flow::machine_length_of(found))
}

#[unsafe(no_mangle)]
#[tactic(auto, unfolding(crate::specs::Interface::way_read))]
pub extern "C" fn simbhoket_way(r: &[u8], address: u32) -> u64
    ensures { result ≡ way_read (read_one r.now) address }
{
    let Some(found) = reading::read_all(r) else {
        return 3;
    };
    way_number_of(flow::way_of(found), address)
}

#[unsafe(no_mangle)]
pub extern "C" fn simbhoket_check(listing: &[u8], base: u32) -> u64
    ensures { result ≡ reported (checked listing.now base) }
{
    match listing::check(listing, base) {
        Ok(()) => 0,
        Err(misfit) => {
            let place = misfit.place.0 as u32;
            pair_of(u32::from(misfit.refusal), place)
        }
    }
}

// What is no image is answered with 1 here and below: C is given the number, and there is no machine to refuse by name.
// Memory and its base come and stay apart, as C lends them: one struct of both would hold a `&mut` slice, which every clause on memory would name.
#[unsafe(no_mangle)]
#[tactic(auto, unfolding(crate::specs::Interface::image_stepped, crate::specs::Interface::leaving, machine::specs::Machine::done, machine::specs::Machine::refused))]
pub extern "C" fn simbhoket_step(machine: &mut [u8], r: &[u8], memory: &mut [u8], base: u32) -> u32
    ensures { left result machine.new memory.new ≡ image_stepped machine.old r.now memory.old (at_base base) }
{
    let known = image::is_image_of(machine);
    if known {
        let before = image::read(machine);
        return match before.step(r, memory, Setup::new(base)) {
            Ok(after) => {
                image::write(machine, after);
                0
            }
            Err(refusal) => u32::from(refusal),
        };
    }
    1
}

#[unsafe(no_mangle)]
#[tactic(auto, unfolding(crate::specs::Interface::image_run, crate::specs::Interface::run_leaving))]
pub extern "C" fn simbhoket_run(
    machine: &mut [u8],
    listing: &[u8],
    origin: u32,
    memory: &mut [u8],
    base: u32,
    budget: u32,
    answer: &mut [u8],
) -> u32
    ensures { run_left result machine.new memory.new answer.new ≡ image_run budget (rehearsal listing.now origin (at_base base)) machine.old memory.old answer.old }
{
    let known = image::is_image_of(machine) & (answer.len() == 12);
    if known {
        let before = image::read(machine);
        let ran = run::run(before, listing, origin, memory, Setup::new(base), budget);
        let after = ran.machine;
        image::write(machine, after);
        let number = ran.end.number();
        tell(answer, number, ran.end.place().0, ran.count);
        return number;
    }
    1
}

#[unsafe(no_mangle)]
#[tactic(auto, unfolding(crate::specs::Interface::halt_leaving, crate::specs::Interface::image_begun))]
pub extern "C" fn simbhoket_begin(
    machine: &mut [u8],
    listing: &[u8],
    origin: u32,
    memory: &mut [u8],
    base: u32,
    budget: u32,
    answer: &mut [u8],
) -> u32
    ensures { run_left result machine.new memory.new answer.new ≡ image_begun budget (rehearsal listing.now origin (at_base base)) machine.old memory.old answer.old }
{
    let known = image::is_image_of(machine) & (answer.len() == 16);
    if known {
        let before = image::read(machine);
        let halted = run::begin(before, listing, origin, memory, Setup::new(base), budget);
        return hand_back(machine, answer, halted);
    }
    1
}

#[unsafe(no_mangle)]
#[tactic(auto, unfolding(crate::specs::Interface::halt_leaving, crate::specs::Interface::image_resumed))]
pub extern "C" fn simbhoket_resume(
    machine: &mut [u8],
    listing: &[u8],
    origin: u32,
    memory: &mut [u8],
    base: u32,
    budget: u32,
    place: u32,
    answer: &mut [u8],
) -> u32
    ensures { run_left result machine.new memory.new answer.new ≡ image_resumed budget (rehearsal listing.now origin (at_base base)) machine.old memory.old place answer.old }
{
    let known = image::is_image_of(machine) & (answer.len() == 16);
    if known {
        let before = image::read(machine);
        let stored = stored_of(place);
        let running = Running {
            machine: before,
            stored,
        };
        let halted = run::resume(running, listing, origin, memory, Setup::new(base), budget);
        return hand_back(machine, answer, halted);
    }
    1
}

#[unsafe(no_mangle)]
#[tactic(auto, unfolding(crate::specs::Interface::text_laid))]
pub extern "C" fn simbhoket_rehearse(listing: &[u8], room: &mut [u8]) -> usize
    ensures { text_left result room.new ≡ text_laid (rehearsed program_budget listing.now room.old) }
{
    let told = rehearsal::rehearse(listing, room);
    told.length
}

fn hand_back(machine: &mut [u8], answer: &mut [u8], halted: Halted) -> u32
    ensures { (result ≡ end_number halted.end) × (machine.new ≡ image_of machine.old halted.running.machine) × (answer.new ≡ with_place answer.old (as_halted halted)) }
{
    let running = halted.running;
    let after = running.machine;
    let stored = running.stored;
    image::write(machine, after);
    let number = halted.end.number();
    tell(answer, number, halted.end.place().0, halted.count);
    memory::store_word(answer, Setup::new(0), 12, place_number_of(stored));
    number
}

#[tactic(auto, unfolding(crate::specs::Interface::numbered_place))]
fn stored_of(place: u32) -> Option<Place>
    ensures { result ≡ numbered_place place }
{
    if place == 0xffff_ffff {
        return None;
    }
    Some(Place(place as usize))
}

#[tactic(auto, unfolding(crate::specs::Interface::place_number))]
fn place_number_of(stored: Option<Place>) -> u32
    ensures { result ≡ place_number stored % 2 ^ 32 }
{
    match stored {
        Some(place) => (place.0 % 0x1_0000_0000) as u32,
        None => 0xffff_ffff,
    }
}

fn tell(answer: &mut [u8], number: u32, place: usize, count: u32)
    ensures { answer.new ≡ with_answer answer.old number place count }
{
    let first = Setup::new(0);
    memory::store_word(answer, first, 0, number);
    memory::store_word(answer, first, 4, (place % 0x1_0000_0000) as u32);
    memory::store_word(answer, first, 8, count);
}

#[tactic(auto, unfolding(crate::specs::Interface::way_number))]
fn way_number_of(w: Way, address: u32) -> u64
    ensures { result ≡ way_number w address }
{
    match w {
        Way::Next => 0,
        Way::Direct(_) => pair_of(1, w.target(address)),
        Way::Taken => 2,
        Way::Fills => 4,
    }
}

fn pair_of(low: u32, high: u32) -> u64
    ensures { result ≡ pair low high }
{
    (high as u64) << 32 | low as u64
}
