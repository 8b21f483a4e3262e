// Kinds 11 to 13 and 16: m is the machine before, from which all is read, next the machine at the next record.

ghost use Rattle.std.specs.Prelude.{◌≡◌};
ghost use Rattle.setup.specs.declared.Setup.{Setup};
ghost use Rattle.machine.specs.Machine.{answered};
ghost use Rattle.machine.specs.Branch.{linking, direct_target, branch_effect, register_branch_effect, branches, compare_branch_effect, table_branch_effect};

use crate::Machine;
use record::op::CompareOp;
use record::{BranchFields, CompareBranchFields, Record, RegisterBranchFields, TableBranchFields};
use refusal::Refusal;
use setup::Setup;
use transfer::Alignment;

#[tactic(auto, unfolding(crate::specs::Branch::linking))]
fn link_if(next: Machine, links: bool) -> Machine
    ensures { result ≡ linking next links }
{
    if links {
        return next.write(Machine::LR, address::link(next.register(Machine::PC)));
    }
    next
}

#[tactic(auto, unfolding(crate::specs::Branch::direct_target))]
fn direct_target_of(m: Machine, r: Record) -> u32
    ensures { result ≡ direct_target m r }
{
    flow::way_of(r).target(m.register(Machine::PC))
}

#[tactic(auto, unfolding(crate::specs::Branch::branch_effect))]
pub fn branch_off(m: Machine, next: Machine, d: BranchFields) -> Result<Machine, Refusal>
    ensures { (setup : Setup) → answered m result ≡ branch_effect m next d setup }
{
    let to = direct_target_of(m, Record::Branch(d));
    Ok(link_if(next, d.op.is_bl()).write(Machine::PC, to))
}

#[tactic(auto, unfolding(crate::specs::Branch::register_branch_effect))]
pub fn branch_to_register(
    m: Machine,
    next: Machine,
    d: RegisterBranchFields,
) -> Result<Machine, Refusal>
    ensures { (setup : Setup) → answered m result ≡ register_branch_effect m next d setup }
{
    let to = m.operand(d.rm);
    let after = link_if(next, d.op.is_blx()).write(Machine::PC, to);
    crate::access::land(after, to)
}

#[tactic(auto, unfolding(crate::specs::Branch::branches))]
pub fn branches_of(op: CompareOp, x: u32) -> bool
    ensures { result ≡ branches op x }
{
    match op {
        CompareOp::Cbz => x == 0,
        CompareOp::Cbnz => x != 0,
    }
}

#[tactic(auto, unfolding(crate::specs::Branch::compare_branch_effect))]
pub fn compare_and_branch(
    m: Machine,
    next: Machine,
    d: CompareBranchFields,
) -> Result<Machine, Refusal>
    ensures { (setup : Setup) → answered m result ≡ compare_branch_effect m next d setup }
{
    if branches_of(d.op, m.register(d.rn)) {
        return Ok(next.write(Machine::PC, direct_target_of(m, Record::CompareBranch(d))));
    }
    Ok(next)
}

#[tactic(auto, unfolding(crate::specs::Branch::table_branch_effect))]
pub fn branch_by_table(
    m: Machine,
    next: Machine,
    d: TableBranchFields,
    memory: &[u8],
    setup: Setup,
) -> Result<Machine, Refusal>
    ensures { answered m result ≡ table_branch_effect m next d memory.now setup }
{
    let at = transfer::entry_address_of(d.op, m.operand(d.rn), m.register(d.rm));
    let width = transfer::entry_width_of(d.op);
    transfer::refusal_of(Alignment::Byte, width, setup, memory, at)?;
    let entry = transfer::load_entry(d.op, setup, memory, at);
    let to = transfer::table_target_of(m.register(Machine::PC), entry);
    Ok(next.write(Machine::PC, to))
}
