// Loads and stores: how wide, from where, in which order, and whether they may be made.

#![tactic(auto)]

ghost use Rattle.std.specs.Prelude.{◌≡◌, ◌*◌, ◌%◌, ◌^◌, length, ◌==◌};
ghost use Rattle.transfer.specs.Transfer.{width, load_value, after_store, reached, multiple, alignment, access_refusal, list_size, lower, lowest_address, new_base, slot, list_stored, entry_width, entry_address, table_target};
ghost use Rattle.std.specs.Prelude.{if◌then◌else◌};
ghost use Rattle.address.specs.Address.{moved};
ghost use Rattle.refusal.specs.Refusal.{number_of};
ghost use Rattle.memory.specs.Memory.{further, loaded};

use record::op::{AccessOp, Mode, MultipleOp, TableOp};
use refusal::Refusal;
use setup::Setup;

// An access of this alignment wants a multiple of 1, of 2 or of 4.
#[derive(Clone, Copy)]
pub enum Alignment {
    Byte,
    Half,
    Word,
}

#[tactic(auto, unfolding(crate::specs::Transfer::width))]
pub fn width_of(op: AccessOp) -> u32
    ensures { result ≡ width op }
{
    match op {
        AccessOp::Ldr => 4,
        AccessOp::Ldrb => 1,
        AccessOp::Ldrh => 2,
        AccessOp::Ldrsb => 1,
        AccessOp::Ldrsh => 2,
        AccessOp::Str => 4,
        AccessOp::Strb => 1,
        AccessOp::Strh => 2,
    }
}

#[tactic(auto, unfolding(crate::specs::Transfer::load_value))]
pub fn load(op: AccessOp, setup: Setup, memory: &[u8], address: u32) -> u32
    ensures { result ≡ load_value op setup memory.now address }
{
    match op {
        AccessOp::Ldr => memory::load_word(memory, setup, address),
        AccessOp::Ldrb => memory::load_byte(memory, setup, address) as u32,
        AccessOp::Ldrh => memory::load_half(memory, setup, address) as u32,
        AccessOp::Ldrsb => field::sxtb(memory::load_byte(memory, setup, address) as u32, 0),
        AccessOp::Ldrsh => field::sxth(memory::load_half(memory, setup, address) as u32, 0),
        AccessOp::Str => 0,
        AccessOp::Strb => 0,
        AccessOp::Strh => 0,
    }
}

#[tactic(auto, unfolding(crate::specs::Transfer::after_store))]
pub fn store(op: AccessOp, setup: Setup, memory: &mut [u8], address: u32, number: u32)
    ensures { memory.new ≡ after_store op setup memory.old address number }
{
    match op {
        AccessOp::Ldr => {}
        AccessOp::Ldrb => {}
        AccessOp::Ldrh => {}
        AccessOp::Ldrsb => {}
        AccessOp::Ldrsh => {}
        AccessOp::Str => memory::store_word(memory, setup, address, number),
        AccessOp::Strb => memory::store_byte(memory, setup, address, number),
        AccessOp::Strh => memory::store_half(memory, setup, address, number),
    }
}

// A base with the offset of a record.
pub fn moved_by(base: u32, offset: i16) -> u32
    ensures { result ≡ moved base offset }
{
    address::offset_by(base, offset as i32)
}

#[tactic(auto, unfolding(crate::specs::Transfer::reached))]
pub fn reached_of(mode: Mode, base: u32, moved: u32) -> u32
    ensures { result ≡ reached mode base moved }
{
    match mode {
        Mode::Offset => moved,
        Mode::PreIndexed => moved,
        Mode::PostIndexed => base,
    }
}

// The alignment that an access of one register wants.
#[tactic(auto, unfolding(crate::specs::Transfer::alignment))]
pub fn alignment_of(op: AccessOp, leaves: bool) -> Alignment
    ensures { result ≡ alignment op leaves }
{
    if op.is_ldr() & leaves {
        return Alignment::Word;
    }
    Alignment::Byte
}

#[tactic(auto, unfolding(crate::specs::Transfer::multiple))]
fn is_aligned(wanted: Alignment, address: u32) -> bool
    ensures { result ≡ (address % multiple wanted == 0) }
{
    match wanted {
        Alignment::Byte => true,
        Alignment::Half => address % 2 == 0,
        Alignment::Word => address % 4 == 0,
    }
}

// May the access be made?
#[tactic(auto, unfolding(crate::specs::Transfer::access_refusal))]
pub fn refusal_of(
    wanted: Alignment,
    count: u32,
    setup: Setup,
    memory: &[u8],
    address: u32,
) -> Result<(), Refusal>
    ensures { number_of result ≡ access_refusal wanted count setup (length memory.now) address }
{
    if !is_aligned(wanted, address) {
        return Err(Refusal::Unaligned);
    }
    if !memory::is_inside(memory, setup, address, count) {
        return Err(Refusal::Outside);
    }
    Ok(())
}

#[tactic(auto, using(register_list::proofs::Laws::members_le), unfolding(crate::specs::Transfer::list_size))]
pub fn list_size_of(list: u16) -> u32
    ensures { result ≡ list_size list }
{
    4 * register_list::count(list)
}

#[tactic(auto, using(crate::proofs::Laws::is_lower), unfolding(crate::specs::Transfer::lowest_address))]
pub fn lowest_address_of(op: MultipleOp, base: u32, size: u32) -> u32
    ensures { result ≡ lowest_address op base size }
{
    match op {
        MultipleOp::Ldmia => base,
        MultipleOp::Ldmdb => base.wrapping_sub(size),
        MultipleOp::Stmia => base,
        MultipleOp::Stmdb => base.wrapping_sub(size),
    }
}

#[tactic(auto, using(crate::proofs::Laws::is_lower), unfolding(crate::specs::Transfer::new_base))]
pub fn new_base_of(op: MultipleOp, base: u32, size: u32) -> u32
    ensures { result ≡ new_base op base size }
{
    match op {
        MultipleOp::Ldmia => base.wrapping_add(size),
        MultipleOp::Ldmdb => base.wrapping_sub(size),
        MultipleOp::Stmia => base.wrapping_add(size),
        MultipleOp::Stmdb => base.wrapping_sub(size),
    }
}

#[tactic(auto, using(crate::proofs::Laws::slot_first, crate::proofs::Laws::slot_next, crate::proofs::Laws::stored_next), unfolding(crate::specs::Transfer::list_stored))]
pub fn store_list(setup: Setup, memory: &mut [u8], registers: [u32; 16], list: u16, lowest: u32)
    ensures { memory.new ≡ list_stored 16 setup memory.old registers list lowest }
{
    let mut address = lowest;
    for i in 0..16u8 {
        let listed = register_list::holds(list, u32::from(i));
        if listed {
            memory::store_word(memory, setup, address, registers[usize::from(i)]);
        }
        address = next_slot(listed, address);
    }
}

// Where a register of a list stands.
#[tactic(auto, using(register_list::proofs::Laws::members_le))]
pub fn slot_of(list: u16, lowest: u32, register: u8) -> u32
    ensures { result ≡ slot list lowest register }
{
    let before = register_list::count_below(list, register as u32);
    lowest.wrapping_add(before * 4)
}

// The address for the next register of a list.
pub fn next_slot(listed: bool, address: u32) -> u32
    ensures { result ≡ (if listed then further address 4 else address) }
{
    if listed {
        return address.wrapping_add(4);
    }
    address
}

// Kind 16: the bytes of an entry of its table.
#[tactic(auto, unfolding(crate::specs::Transfer::entry_width))]
pub fn entry_width_of(op: TableOp) -> u32
    ensures { result ≡ entry_width op }
{
    match op {
        TableOp::Tbb => 1,
        TableOp::Tbh => 2,
    }
}

#[tactic(auto, using(crate::proofs::Laws::wrapped_after), unfolding(crate::specs::Transfer::entry_width, crate::specs::Transfer::entry_address))]
pub fn entry_address_of(op: TableOp, table: u32, index: u32) -> u32
    ensures { result ≡ entry_address op table index }
{
    match op {
        TableOp::Tbb => table.wrapping_add(index),
        TableOp::Tbh => table.wrapping_add(double(index)),
    }
}

#[tactic(auto, unfolding(crate::specs::Transfer::entry_width))]
pub fn load_entry(op: TableOp, setup: Setup, memory: &[u8], address: u32) -> u32
    ensures { result ≡ loaded (entry_width op) setup memory.now address }
{
    match op {
        TableOp::Tbb => memory::load_byte(memory, setup, address) as u32,
        TableOp::Tbh => memory::load_half(memory, setup, address) as u32,
    }
}

fn double(x: u32) -> u32
    ensures { result ≡ 2 * x % 2 ^ 32 }
{
    x.wrapping_add(x)
}

// Where a table branch at an address goes by an entry.
#[tactic(auto, using(crate::proofs::Laws::wrapped_both), unfolding(crate::specs::Transfer::table_target))]
pub fn table_target_of(address: u32, entry: u32) -> u32
    ensures { result ≡ table_target address entry }
{
    let ahead = address.wrapping_add(4);
    ahead.wrapping_add(double(entry))
}
