// Memory: one lent buffer with a base address, little-endian. Above this crate there are addresses only.

#![tactic(auto)]

ghost use Rattle.std.specs.Prelude.{◌≡◌, ◌+◌, ◌*◌, ◌/◌, ◌%◌, ◌^◌, ◌<◌, ◌≤◌, length, slice_set};
ghost use Rattle.little.specs.Little.{number_at};
ghost use Rattle.memory.specs.Memory.{holds, inside, byte_at, put_byte, loaded, stored};

use setup::Setup;

// The offset of an address where memory isn't past 2^32, else memory's size. So offsets below the size are in one run with their
// addresses, and one test of them answers for all bytes of an access.
fn offset_of(size: usize, setup: Setup, address: u32) -> usize
    ensures { (result < size + 2 ^ 32) × (result < size → (address ≡ setup.base + result) × (setup.base + size ≤ 2 ^ 32)) }
{
    if size <= 0x1_0000_0000 - setup.base as usize {
        return address.wrapping_sub(setup.base) as usize;
    }
    size
}

#[tactic(auto, using(crate::proofs::Laws::held_by_offset))]
fn is_held(size: usize, setup: Setup, address: u32) -> bool
    ensures { result ≡ holds setup size address }
{
    setup.base <= address && ((address - setup.base) as usize) < size
}

// Are so many bytes from an address on in memory?
pub fn is_inside(memory: &[u8], setup: Setup, address: u32, count: u32) -> bool
    ensures { result ≡ inside count setup (length memory.now) address }
{
    let size = memory.len();
    let at = offset_of(size, setup, address);
    if at + count as usize <= size {
        return true;
    }
    is_each_inside(size, setup, address, count)
}

#[tactic(auto, using(crate::proofs::Laws::inside_more, crate::proofs::Laws::outside), unfolding(crate::specs::Memory::inside))]
fn is_each_inside(size: usize, setup: Setup, address: u32, count: u32) -> bool
    ensures { result ≡ inside count setup size address }
{
    for i in 0..count {
        if !is_held(size, setup, address.wrapping_add(i)) {
            return false;
        }
    }
    true
}

#[tactic(auto, using(crate::proofs::Laws::byte_below, crate::proofs::Laws::byte_from_base))]
fn byte_of(memory: &[u8], setup: Setup, address: u32) -> u8
    ensures { result ≡ byte_at setup memory.now address }
{
    if address < setup.base {
        return 0;
    }
    little::byte_at(memory, (address - setup.base) as usize)
}

// These three, and the stores, answer a u8, a u16 and a u32 on one fast path each. One function of a width would ask that it is below 5, which
// a public function does not, and its callers would narrow what it gives.
#[tactic(auto, unfolding(crate::specs::Memory::loaded, little::specs::Little::little))]
pub fn load_byte(memory: &[u8], setup: Setup, address: u32) -> u8
    ensures { result ≡ loaded 1 setup memory.now address }
{
    let at = offset_of(memory.len(), setup, address);
    if at < memory.len() {
        return memory[at];
    }
    byte_of(memory, setup, address)
}

#[tactic(auto, using(crate::proofs::Laws::quick_loaded))]
pub fn load_half(memory: &[u8], setup: Setup, address: u32) -> u16
    ensures { result ≡ loaded 2 setup memory.now address }
{
    let at = offset_of(memory.len(), setup, address);
    if at + 2 <= memory.len() {
        return half_in(memory, at);
    }
    load_each(memory, setup, address, 2) as u16
}

pub fn load_word(memory: &[u8], setup: Setup, address: u32) -> u32
    ensures { result ≡ loaded 4 setup memory.now address }
{
    let at = offset_of(memory.len(), setup, address);
    if at + 4 <= memory.len() {
        return (half_in(memory, at + 2) as u32) << 16 | half_in(memory, at) as u32;
    }
    load_each(memory, setup, address, 4)
}

fn half_in(memory: &[u8], at: usize) -> u16
    requires { at + 2 ≤ length memory.now }
    ensures { result ≡ number_at 2 memory.now at }
{
    (memory[at + 1] as u16) << 8 | memory[at] as u16
}

// Byte by byte, where some may not be in memory. It calls itself, so that it isn't copied into the code of those who call it.
#[tactic(auto, using(crate::proofs::Laws::loaded_next), unfolding(crate::specs::Memory::loaded, little::specs::Little::little))]
fn load_each(memory: &[u8], setup: Setup, address: u32, count: u32) -> u32
    requires { count ≤ 4 }
    ensures { (result ≡ loaded count setup memory.now address) × (result < 2 ^ (8 * count)) }
{
    if 0 < count {
        let low = byte_of(memory, setup, address);
        let next = address.wrapping_add(1);
        return load_each(memory, setup, next, count - 1) << 8 | low as u32;
    }
    0
}

// The lowest byte of a number.
#[tactic(auto, unfolding(crate::specs::Memory::stored))]
pub fn store_byte(memory: &mut [u8], setup: Setup, address: u32, number: u32)
    ensures { memory.new ≡ stored 1 setup memory.old address number }
{
    let low = (number % 0x100) as u8;
    let size = memory.len();
    let at = offset_of(size, setup, address);
    if at < size {
        memory[at] = low;
        return;
    }
    put(memory, setup, address, low);
}

// The two lowest.
pub fn store_half(memory: &mut [u8], setup: Setup, address: u32, number: u32)
    ensures { memory.new ≡ stored 2 setup memory.old address number }
{
    let size = memory.len();
    let at = offset_of(size, setup, address);
    if at + 2 <= size {
        put_half_in(memory, at, number);
        return;
    }
    store_each(memory, setup, address, 2, number);
}

pub fn store_word(memory: &mut [u8], setup: Setup, address: u32, number: u32)
    ensures { memory.new ≡ stored 4 setup memory.old address number }
{
    let size = memory.len();
    let at = offset_of(size, setup, address);
    if at + 4 <= size {
        put_half_in(memory, at, number);
        put_half_in(memory, at + 2, number >> 16);
        return;
    }
    store_each(memory, setup, address, 4, number);
}

fn put_half_in(memory: &mut [u8], at: usize, number: u32)
    requires { at + 2 ≤ length memory.old }
    ensures { memory.new ≡ slice_set (slice_set memory.old at (number % 2 ^ 8)) (at + 1) (number / 2 ^ 8 % 2 ^ 8) }
{
    memory[at] = (number % 0x100) as u8;
    memory[at + 1] = ((number >> 8) % 0x100) as u8;
}

#[tactic(auto, using(crate::proofs::Laws::stored_next), unfolding(crate::specs::Memory::stored))]
fn store_each(memory: &mut [u8], setup: Setup, address: u32, count: u32, number: u32)
    requires { count ≤ 4 }
    ensures { memory.new ≡ stored count setup memory.old address number }
{
    if 0 < count {
        let i = count - 1;
        store_each(memory, setup, address, i, number);
        let here = address.wrapping_add(i);
        put(memory, setup, here, ((number >> (8 * i)) % 0x100) as u8);
    }
}

#[tactic(auto, using(crate::proofs::Laws::put_below, crate::proofs::Laws::put_here, crate::proofs::Laws::put_past))]
fn put(memory: &mut [u8], setup: Setup, address: u32, x: u8)
    ensures { memory.new ≡ put_byte setup memory.old address x }
{
    if address < setup.base {
        return;
    }
    let at = (address - setup.base) as usize;
    if at < memory.len() {
        memory[at] = x;
    }
}
