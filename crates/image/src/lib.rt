// A machine as 74 bytes: what the C functions take and give.

#![tactic(auto)]

ghost use Rattle.std.specs.Prelude.{◌≡◌, set};
ghost use Rattle.image.specs.Image.{words, flags_of, flags_fit, condition_at, waiting_of, place_fits, waiting_fits, is_image, machine_of, condition_byte, with_flag_bytes, with_waiting_bytes, image_of};

use flags::Flags;
use machine::Machine;
use setup::Setup;
use waiting::Waiting;

#[tactic(auto, unfolding(crate::specs::Image::is_image))]
pub fn is_image_of(image: &[u8]) -> bool
    ensures { result ≡ is_image image.now }
{
    (image.len() == 74) & do_flags_fit(image) & does_waiting_fit(image)
}

#[tactic(auto, unfolding(crate::specs::Image::flags_fit))]
fn do_flags_fit(image: &[u8]) -> bool
    ensures { result ≡ flags_fit image.now }
{
    (64..69).all(|at| little::byte_at(image, at) < 2)
}

#[tactic(auto, unfolding(crate::specs::Image::place_fits))]
fn does_place_fit(image: &[u8], i: u8) -> bool
    ensures { result ≡ place_fits image.now i }
{
    let condition = little::byte_at(image, 70 + usize::from(i));
    if i < little::byte_at(image, 69) {
        return condition <= 14;
    }
    condition == 0
}

#[tactic(auto, unfolding(crate::specs::Image::waiting_fits))]
fn does_waiting_fit(image: &[u8]) -> bool
    ensures { result ≡ waiting_fits image.now }
{
    little::byte_at(image, 69) <= 4 && (0..4).all(|i| does_place_fit(image, i))
}

// The machine that an image is.
#[tactic(auto, unfolding(crate::specs::Image::machine_of))]
pub fn read(image: &[u8]) -> Machine
    ensures { result ≡ machine_of image.now }
{
    Machine {
        registers: registers_of(image),
        flags: flags_from(image),
        waiting: waiting_from(image),
    }
}

#[tactic(auto, using(crate::proofs::Laws::words_next), unfolding(crate::specs::Image::words))]
fn registers_of(image: &[u8]) -> [u32; 16]
    ensures { result ≡ words 16 image.now }
{
    let mut registers = [0; 16];
    for i in 0..16 {
        registers[i] = little::word_at(image, 4 * i);
    }
    registers
}

#[tactic(auto, unfolding(crate::specs::Image::flags_of))]
fn flags_from(image: &[u8]) -> Flags
    ensures { result ≡ flags_of image.now }
{
    Flags {
        n: little::byte_at(image, 64) == 1,
        z: little::byte_at(image, 65) == 1,
        c: little::byte_at(image, 66) == 1,
        v: little::byte_at(image, 67) == 1,
        q: little::byte_at(image, 68) == 1,
    }
}

fn condition_from(image: &[u8], i: u8) -> u8
    ensures { result ≡ condition_at image.now i }
{
    if i < little::byte_at(image, 69) {
        return little::byte_at(image, 70 + usize::from(i));
    }
    Waiting::NONE
}

#[tactic(auto, unfolding(crate::specs::Image::waiting_of))]
fn waiting_from(image: &[u8]) -> Waiting
    ensures { result ≡ waiting_of image.now }
{
    Waiting {
        first: condition_from(image, 0),
        second: condition_from(image, 1),
        third: condition_from(image, 2),
        fourth: condition_from(image, 3),
    }
}

// Puts a machine in an image; of a slice of another length, what there is room for.
#[tactic(auto, unfolding(crate::specs::Image::image_of))]
pub fn write(image: &mut [u8], m: Machine)
    ensures { image.new ≡ image_of image.old m }
{
    transfer::store_list(Setup::new(0), image, m.registers, 0xffff, 0);
    write_flags(image, m.flags);
    write_waiting(image, m.waiting);
}

fn put(image: &mut [u8], at: usize, x: u8)
    ensures { image.new ≡ set image.old at x }
{
    if at < image.len() {
        image[at] = x;
    }
}

// A line for each byte, here and below: which flag and which condition stands where is what an image is, and an array to walk would say it again.
#[tactic(auto, unfolding(crate::specs::Image::with_flag_bytes))]
fn write_flags(image: &mut [u8], flags: Flags)
    ensures { image.new ≡ with_flag_bytes image.old flags }
{
    put(image, 64, u8::from(flags.n));
    put(image, 65, u8::from(flags.z));
    put(image, 66, u8::from(flags.c));
    put(image, 67, u8::from(flags.v));
    put(image, 68, u8::from(flags.q));
}

fn condition_byte_of(condition: u8) -> u8
    ensures { result ≡ condition_byte condition }
{
    if condition == Waiting::NONE {
        return 0;
    }
    condition
}

#[tactic(auto, using(crate::proofs::Laws::count_le), unfolding(crate::specs::Image::with_waiting_bytes))]
fn write_waiting(image: &mut [u8], waiting: Waiting)
    ensures { image.new ≡ with_waiting_bytes image.old waiting }
{
    put(image, 69, waiting.count() as u8);
    put(image, 70, condition_byte_of(waiting.first));
    put(image, 71, condition_byte_of(waiting.second));
    put(image, 72, condition_byte_of(waiting.third));
    put(image, 73, condition_byte_of(waiting.fourth));
}
