// One step of a run, on the machine's parts.

#![tactic(auto)]

ghost use Rattle.std.specs.Prelude.{◌≡◌, nat_eq};
ghost use Rattle.std.specs.Prelude.{if◌then◌else◌};
ghost use Rattle.flags.specs.Flags.{passes};
ghost use Rattle.waiting.specs.Waiting.{none};
ghost use Rattle.flow.specs.Flow.{form_length, machine_length, after, own_condition};
ghost use Rattle.refusal.specs.Refusal.{number_of};
ghost use Rattle.lent.specs.Lent.{Obeys};
ghost use Rattle.kinds.specs.Kinds.{form, record_of};
ghost use Rattle.pace.specs.Pace.{SteppedKind, Ready, ahead_in, Steps};

use flags::Flags;
use record::register;
use refusal::Refusal;
use setup::Setup;
use waiting::Waiting;

// The step of a record: what it leaves is what `obeyed` gives.
pub fn obey(
    registers: &mut [u32; 16],
    flags: &mut Flags,
    waiting: Waiting,
    ahead: u32,
    r: &[u8],
    memory: &mut [u8],
    setup: Setup,
) -> Result<(), Refusal>
    requires { Ready r.now waiting × (ahead ≡ ahead_in registers.old r.now) }
    ensures { Steps (number_of result) registers.new flags.new memory.new registers.old flags.old waiting r.now memory.old setup }
{
    if is_passed(*flags, waiting.first, r) {
        return take_effect(registers, flags, ahead, r, memory, setup);
    }
    lent::put(registers, register::PC, ahead);
    Ok(())
}

// By the kind, which is the first byte of a record in the listing (`kinds::record_from` says why it is no enum). One call for a group of kinds
// whose arm is large: the compiler then puts it here.
// `SteppedKind` is asked of the bytes here and below and is no type's: `race` takes them anew each round, and a type would wrap them for one step.
fn take_effect(
    registers: &mut [u32; 16],
    flags: &mut Flags,
    ahead: u32,
    r: &[u8],
    memory: &mut [u8],
    setup: Setup,
) -> Result<(), Refusal>
    requires { SteppedKind r.now }
    ensures { Obeys (number_of result) registers.new flags.new memory.new registers.old flags.old ahead r.now memory.old setup }
{
    let kind = r[0];
    if kind < 4 {
        return data_arms::operate(registers, flags, ahead, r);
    }
    let accesses = (kind == 13) | (kind == 14);
    if accesses {
        return access_arms::access_one(registers, ahead, r, memory, setup);
    }
    match kind {
        4 => data_arms::add_a_number(registers, ahead, r),
        5 => data_arms::move_a_number(registers, ahead, r),
        6 => data_arms::operate_unary(registers, ahead, r),
        7 => data_arms::multiply(registers, flags, ahead, r),
        8 => data_arms::multiply_long(registers, ahead, r),
        9 => data_arms::divide(registers, ahead, r),
        10 => data_arms::saturate(registers, flags, ahead, r),
        11 => data_arms::set_field(registers, ahead, r),
        12 => data_arms::extend(registers, ahead, r),
        15 => access_arms::access_two(registers, ahead, r, memory, setup),
        16 => access_arms::many::access_many(registers, ahead, r, memory, setup),
        17 => {
            branch_arms::branch_off(registers, ahead, r);
            Ok(())
        }
        18 => branch_arms::branch_to_register(registers, ahead, r),
        19 => {
            branch_arms::compare_and_branch(registers, ahead, r);
            Ok(())
        }
        22 => branch_arms::branch_by_table(registers, ahead, r, memory, setup),
        _ => {
            lent::put(registers, register::PC, ahead);
            Ok(())
        }
    }
}

// The address of the next record.
pub fn ahead_of(registers: &[u32; 16], r: &[u8]) -> u32
    requires { SteppedKind r.now }
    ensures { result ≡ ahead_in registers.now r.now }
{
    let here = lent::read(registers, register::PC);
    here.wrapping_add(length_of(r))
}

// In machine bytes: bit 1 of the form byte, which in IT and NOP has no op before it. By the byte of the kind, as in `take_effect`.
fn length_of(r: &[u8]) -> u32
    requires { SteppedKind r.now }
    ensures { result ≡ machine_length (record_of r.now) }
{
    let kind = r[0];
    let without_op = (kind == 20) | (kind == 21);
    if without_op {
        return form_length_of(r[1]);
    }
    form_length_of(r[2])
}

#[tactic(auto, unfolding(kinds::specs::Kinds::form))]
fn form_length_of(bits: u8) -> u32
    ensures { result ≡ form_length (form bits) }
{
    let wide = word::bit_of(1, u32::from(bits));
    if wide { 4 } else { 2 }
}

// The conditions that wait after a record, by the byte of its kind.
pub fn waiting_after(waiting: Waiting, r: &[u8]) -> Waiting
    requires { Ready r.now waiting }
    ensures { result ≡ after (record_of r.now) waiting }
{
    let kind = r[0];
    if kind == 20 {
        return Waiting::block_of(r[2], r[3], r[4]);
    }
    if waiting.first == Waiting::NONE {
        return waiting;
    }
    waiting.drop_first()
}

// Does the condition that rules a record pass: the first that waits, or a branch's own? By the byte of the kind.
fn is_passed(flags: Flags, first: u8, r: &[u8]) -> bool
    requires { SteppedKind r.now }
    ensures { result ≡ passes flags (if nat_eq first none then own_condition (record_of r.now) else first) }
{
    if first == Waiting::NONE {
        let kind = r[0];
        if kind == 17 {
            return flags.pass(r[3]);
        }
        return true;
    }
    flags.pass(first)
}
