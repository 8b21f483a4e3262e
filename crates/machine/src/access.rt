// Kinds 0D to 10: m is the machine before, from which all is read, next the machine at the next record. Nothing is stored before
// every test is passed.

ghost use Rattle.std.specs.Prelude.{◌≡◌};
ghost use Rattle.machine.specs.Access.{storing, based, arriving, access_made, access_done, access_effect, indexed_access_effect, dual_made, dual_access_effect, list_loaded, list_arriving, multiple_made, multiple_access_effect};
ghost use Rattle.std.specs.Prelude.{if◌then◌else◌};
ghost use Rattle.machine.specs.Machine.{written, landed, answered, keeping};

use crate::Machine;
use record::op::{AccessOp, Mode};
use record::{AccessFields, DualAccessFields, IndexedAccessFields, MultipleAccessFields};
use refusal::Refusal;
use setup::Setup;
use transfer::Alignment;

// A value for R15 must have bit 0 set.
#[tactic(auto, unfolding(crate::specs::Machine::landed))]
pub fn land(next: Machine, value: u32) -> Result<Machine, Refusal>
    ensures { (m : Machine) → answered m result ≡ landed m next value }
{
    if !word::bit_of(0, value) {
        return Err(Refusal::Unsteady);
    }
    next.settle()
}

#[tactic(auto, unfolding(crate::specs::Access::based))]
fn write_back(next: Machine, mode: Mode, rn: u8, to: u32) -> Machine
    ensures { result ≡ based next mode rn to }
{
    if mode.is_offset() {
        return next;
    }
    next.write(rn, to)
}

#[tactic(auto, unfolding(crate::specs::Access::arriving))]
fn arrive(back: Machine, rt: u8, value: u32) -> Result<Machine, Refusal>
    ensures { (m : Machine) → answered m result ≡ arriving m back rt value }
{
    let after = back.write(rt, value);
    if rt == Machine::PC {
        return land(after, value);
    }
    after.settle()
}

#[tactic(auto, unfolding(crate::specs::Access::access_made, crate::specs::Access::storing))]
fn make_access(
    m: Machine,
    back: Machine,
    op: AccessOp,
    rt: u8,
    address: u32,
    memory: &mut [u8],
    setup: Setup,
) -> Result<Machine, Refusal>
    ensures { keeping (answered m result) memory.new ≡ access_made m back op rt address memory.old setup }
{
    if op.loads() {
        return arrive(back, rt, transfer::load(op, setup, memory, address));
    }
    if !back.is_steady() {
        return Err(Refusal::Unsteady);
    }
    transfer::store(op, setup, memory, address, m.register(rt));
    Ok(back)
}

#[tactic(auto, unfolding(crate::specs::Access::access_done))]
fn do_access(
    m: Machine,
    back: Machine,
    op: AccessOp,
    rt: u8,
    address: u32,
    memory: &mut [u8],
    setup: Setup,
) -> Result<Machine, Refusal>
    ensures { keeping (answered m result) memory.new ≡ access_done m back op rt address memory.old setup }
{
    let wanted = transfer::alignment_of(op, rt == Machine::PC);
    transfer::refusal_of(wanted, transfer::width_of(op), setup, memory, address)?;
    make_access(m, back, op, rt, address, memory, setup)
}

#[tactic(auto, unfolding(crate::specs::Access::access_effect))]
pub fn access_one(
    m: Machine,
    next: Machine,
    d: AccessFields,
    memory: &mut [u8],
    setup: Setup,
) -> Result<Machine, Refusal>
    ensures { keeping (answered m result) memory.new ≡ access_effect m next d memory.old setup }
{
    let base = m.base(d.rn);
    let to = transfer::moved_by(base, d.offset);
    let back = write_back(next, d.mode, d.rn, to);
    let address = transfer::reached_of(d.mode, base, to);
    do_access(m, back, d.op, d.rt, address, memory, setup)
}

#[tactic(auto, unfolding(crate::specs::Access::indexed_access_effect))]
pub fn access_indexed(
    m: Machine,
    next: Machine,
    d: IndexedAccessFields,
    memory: &mut [u8],
    setup: Setup,
) -> Result<Machine, Refusal>
    ensures { keeping (answered m result) memory.new ≡ indexed_access_effect m next d memory.old setup }
{
    let offset = shift::lsl(m.operand(d.rm), d.amount as u32, false);
    let address = m.base(d.rn).wrapping_add(offset.value);
    do_access(m, next, d.op, d.rt, address, memory, setup)
}

#[tactic(auto, unfolding(crate::specs::Access::dual_made, crate::specs::Access::storing))]
fn make_two(
    m: Machine,
    back: Machine,
    d: DualAccessFields,
    address: u32,
    memory: &mut [u8],
    setup: Setup,
) -> Result<Machine, Refusal>
    ensures { keeping (answered m result) memory.new ≡ dual_made m back d address memory.old setup }
{
    let second = address.wrapping_add(4);
    if d.op.loads() {
        let first = back.write(d.rt, memory::load_word(memory, setup, address));
        return first
            .write(d.rt2, memory::load_word(memory, setup, second))
            .settle();
    }
    if !back.is_steady() {
        return Err(Refusal::Unsteady);
    }
    memory::store_word(memory, setup, address, m.register(d.rt));
    memory::store_word(memory, setup, second, m.register(d.rt2));
    Ok(back)
}

#[tactic(auto, unfolding(crate::specs::Access::dual_access_effect, crate::specs::Access::dual_made))]
pub fn access_two(
    m: Machine,
    next: Machine,
    d: DualAccessFields,
    memory: &mut [u8],
    setup: Setup,
) -> Result<Machine, Refusal>
    ensures { keeping (answered m result) memory.new ≡ dual_access_effect m next d memory.old setup }
{
    let base = m.base(d.rn);
    let to = transfer::moved_by(base, d.offset);
    let address = transfer::reached_of(d.mode, base, to);
    transfer::refusal_of(Alignment::Word, 8, setup, memory, address)?;
    let next = write_back(next, d.mode, d.rn, to);
    make_two(m, next, d, address, memory, setup)
}

#[tactic(auto, using(crate::proofs::Laws::loaded_next, transfer::proofs::Laws::slot_first, transfer::proofs::Laws::slot_next), unfolding(crate::specs::Access::list_loaded))]
fn load_list(back: Machine, list: u16, low: u32, memory: &[u8], setup: Setup) -> Machine
    ensures { result ≡ list_loaded 16 back list low memory.now setup }
{
    let mut machine = back;
    let mut address = low;
    for i in 0..16u8 {
        let listed = register_list::holds(list, u32::from(i));
        if listed {
            machine = machine.write(i, memory::load_word(memory, setup, address));
        }
        address = transfer::next_slot(listed, address);
    }
    machine
}

#[tactic(auto, unfolding(crate::specs::Access::list_arriving))]
fn arrive_list(
    back: Machine,
    list: u16,
    low: u32,
    memory: &[u8],
    setup: Setup,
) -> Result<Machine, Refusal>
    ensures { (m : Machine) → answered m result ≡ list_arriving m back list low memory.now setup }
{
    let after = load_list(back, list, low, memory, setup);
    if register_list::holds(list, u32::from(Machine::PC)) {
        let slot = transfer::slot_of(list, low, Machine::PC);
        return land(after, memory::load_word(memory, setup, slot));
    }
    after.settle()
}

fn write_list_base(next: Machine, d: MultipleAccessFields, to: u32) -> Machine
    ensures { result ≡ (if d.writeback then written next d.rn to else next) }
{
    if d.writeback {
        return next.write(d.rn, to);
    }
    next
}

#[tactic(auto, unfolding(crate::specs::Access::multiple_access_effect))]
pub fn access_many(
    m: Machine,
    next: Machine,
    d: MultipleAccessFields,
    memory: &mut [u8],
    setup: Setup,
) -> Result<Machine, Refusal>
    ensures { keeping (answered m result) memory.new ≡ multiple_access_effect m next d memory.old setup }
{
    let base = m.register(d.rn);
    let size = transfer::list_size_of(d.list);
    let low = transfer::lowest_address_of(d.op, base, size);
    transfer::refusal_of(Alignment::Word, size, setup, memory, low)?;
    let back = write_list_base(next, d, transfer::new_base_of(d.op, base, size));
    make_many(m, back, d, low, memory, setup)
}

#[tactic(auto, unfolding(crate::specs::Access::multiple_made, crate::specs::Access::storing))]
fn make_many(
    m: Machine,
    back: Machine,
    d: MultipleAccessFields,
    low: u32,
    memory: &mut [u8],
    setup: Setup,
) -> Result<Machine, Refusal>
    ensures { keeping (answered m result) memory.new ≡ multiple_made m back d low memory.old setup }
{
    if d.op.loads() {
        return arrive_list(back, d.list, low, memory, setup);
    }
    if !back.is_steady() {
        return Err(Refusal::Unsteady);
    }
    transfer::store_list(setup, memory, m.registers, d.list, low);
    Ok(back)
}
