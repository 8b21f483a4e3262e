// The machine in parts: registers and flags are lent to the arm of a record. A register's number is below 16, as the check has seen.

#![tactic(auto)]

ghost use Rattle.std.specs.Prelude.{◌≡◌, ◌<◌, slice_index, slice_set};
ghost use Rattle.machine.specs.Machine.{PC};
ghost use Rattle.lent.specs.Lent.{put_in, operand_in, base_in, steady_in, Settled};

pub mod bytes;

use record::register;
use refusal::Refusal;

// That n is below 16 is asked here and below and not kept in a type: each caller would wrap the number of its record, and ask the same there.
pub fn read(registers: &[u32; 16], n: u8) -> u32
    requires { n < 16 }
    ensures { result ≡ slice_index registers.now n }
{
    registers[usize::from(n)]
}

// The address plus 4 of R15.
pub fn operand(registers: &[u32; 16], n: u8) -> u32
    requires { n < 16 }
    ensures { result ≡ operand_in registers.now n }
{
    if n == register::PC {
        return registers[15].wrapping_add(4);
    }
    read(registers, n)
}

// That with bit 1 cleared.
pub fn base(registers: &[u32; 16], n: u8) -> u32
    requires { n < 16 }
    ensures { result ≡ base_in registers.now n }
{
    if n == register::PC {
        return address::word_base(registers[15].wrapping_add(4));
    }
    read(registers, n)
}

fn lay(registers: &mut [u32; 16], n: u8, value: u32)
    requires { n < 16 }
    ensures { registers.new ≡ slice_set registers.old n value }
{
    registers[usize::from(n)] = value;
}

// Every value put in R15 has bit 0 cleared.
#[tactic(auto, unfolding(machine::specs::Machine::kept))]
pub fn put(registers: &mut [u32; 16], n: u8, value: u32)
    requires { n < 16 }
    ensures { registers.new ≡ put_in registers.old n value }
{
    if n == register::PC {
        lay(registers, n, address::even(value));
        return;
    }
    lay(registers, n, value);
}

pub fn is_steady(registers: &[u32; 16]) -> bool
    ensures { result ≡ steady_in registers.now }
{
    registers[13] % 4 == 0
}

// On to the next record with nothing else written. This and the two below write no, one and two registers: a list of writes would be walked twice on
// the hot path, to write and to take back.
pub fn settle_none(registers: &mut [u32; 16], ahead: u32) -> Result<(), Refusal>
    ensures { Settled registers.old (put_in registers.old PC ahead) registers.new result }
{
    let pc = read(registers, register::PC);
    put(registers, register::PC, ahead);
    if is_steady(registers) {
        return Ok(());
    }
    lay(registers, register::PC, pc);
    Err(Refusal::Unsteady)
}

// Writes, looks at R13, and takes it back where that came out as no multiple of 4: what was written last first, so that it holds also
// where two of the registers are one.
pub fn settle(registers: &mut [u32; 16], ahead: u32, rd: u8, value: u32) -> Result<(), Refusal>
    requires { rd < 16 }
    ensures { Settled registers.old (put_in (put_in registers.old PC ahead) rd value) registers.new result }
{
    let pc = read(registers, register::PC);
    put(registers, register::PC, ahead);
    let old = read(registers, rd);
    put(registers, rd, value);
    if is_steady(registers) {
        return Ok(());
    }
    lay(registers, rd, old);
    lay(registers, register::PC, pc);
    Err(Refusal::Unsteady)
}

// Two registers, the second last.
pub fn settle_two(
    registers: &mut [u32; 16],
    ahead: u32,
    one: u8,
    value: u32,
    other: u8,
    further: u32,
) -> Result<(), Refusal>
    requires { (one < 16) × (other < 16) }
    ensures { Settled registers.old (put_in (put_in (put_in registers.old PC ahead) one value) other further) registers.new result }
{
    let pc = read(registers, register::PC);
    put(registers, register::PC, ahead);
    let first = read(registers, one);
    put(registers, one, value);
    let second = read(registers, other);
    put(registers, other, further);
    if is_steady(registers) {
        return Ok(());
    }
    lay(registers, other, second);
    lay(registers, one, first);
    lay(registers, register::PC, pc);
    Err(Refusal::Unsteady)
}
