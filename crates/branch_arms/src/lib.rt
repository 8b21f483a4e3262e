// Kinds 11 to 13 and 16 in a run: the registers are lent, and the fields come from the bytes of a record that the check has passed.

#![tactic(auto)]

ghost use Rattle.std.specs.Prelude.{◌≡◌};
ghost use Rattle.refusal.specs.Refusal.{number_of};
ghost use Rattle.machine.specs.Machine.{PC};
ghost use Rattle.lent.specs.Lent.{put_in, Settled, OfKind, ObeysOn, ObeysMoving};
ghost use Rattle.branch_arms.specs.Link.{link_in};

use lent::bytes;
use machine::branch::branches_of;
use record::register;
use refusal::Refusal;
use setup::Setup;
use transfer::Alignment;

// 11: its own condition was asked before. Never refused.
pub fn branch_off(registers: &mut [u32; 16], ahead: u32, r: &[u8])
    requires { OfKind 17 r.now }
    ensures { ObeysOn 0 registers.new registers.old ahead r.now }
{
    let d = kinds::branch_from(bytes::first::<8>(r));
    let near = lent::read(registers, register::PC).wrapping_add(4);
    let to = address::offset_by(near, d.offset);
    link(registers, ahead, d.op.is_bl());
    lent::put(registers, register::PC, to);
}

// On to the next record, with R14 behind it where the record links.
fn link(registers: &mut [u32; 16], ahead: u32, links: bool)
    ensures { registers.new ≡ link_in registers.old ahead links }
{
    lent::put(registers, register::PC, ahead);
    if links {
        let next = lent::read(registers, register::PC);
        lent::put(registers, register::LR, address::link(next));
    }
}

// 12: Rm is read before R14 is written.
pub fn branch_to_register(registers: &mut [u32; 16], ahead: u32, r: &[u8]) -> Result<(), Refusal>
    requires { OfKind 18 r.now }
    ensures { ObeysOn (number_of result) registers.new registers.old ahead r.now }
{
    let d = kinds::register_branch_from(bytes::first::<4>(r));
    let to = lent::operand(registers, d.rm);
    if !word::bit_of(0, to) {
        return Err(Refusal::Unsteady);
    }
    settle_link(registers, ahead, d.op.is_blx(), to)
}

// R13 is not among what is written, but what was there may be no multiple of 4.
fn settle_link(registers: &mut [u32; 16], ahead: u32, links: bool, to: u32) -> Result<(), Refusal>
    ensures { Settled registers.old (put_in (link_in registers.old ahead links) PC to) registers.new result }
{
    if !lent::is_steady(registers) {
        return Err(Refusal::Unsteady);
    }
    link(registers, ahead, links);
    lent::put(registers, register::PC, to);
    Ok(())
}

// 13: never refused.
pub fn compare_and_branch(registers: &mut [u32; 16], ahead: u32, r: &[u8])
    requires { OfKind 19 r.now }
    ensures { ObeysOn 0 registers.new registers.old ahead r.now }
{
    let d = kinds::compare_branch_from(bytes::first::<5>(r));
    if branches_of(d.op, lent::read(registers, d.rn)) {
        let near = lent::read(registers, register::PC).wrapping_add(4);
        let to = near.wrapping_add(u32::from(d.offset));
        lent::put(registers, register::PC, to);
        return;
    }
    lent::put(registers, register::PC, ahead);
}

// 16
pub fn branch_by_table(
    registers: &mut [u32; 16],
    ahead: u32,
    r: &[u8],
    memory: &[u8],
    setup: Setup,
) -> Result<(), Refusal>
    requires { OfKind 22 r.now }
    ensures { ObeysMoving (number_of result) registers.new memory.now registers.old ahead r.now memory.now setup }
{
    let d = kinds::table_branch_from(bytes::first::<5>(r));
    let width = transfer::entry_width_of(d.op);
    let table = lent::operand(registers, d.rn);
    let index = lent::read(registers, d.rm);
    let at = transfer::entry_address_of(d.op, table, index);
    transfer::refusal_of(Alignment::Byte, width, setup, memory, at)?;
    let entry = transfer::load_entry(d.op, setup, memory, at);
    let from = lent::read(registers, register::PC);
    lent::put(
        registers,
        register::PC,
        transfer::table_target_of(from, entry),
    );
    Ok(())
}
