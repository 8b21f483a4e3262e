// Kind 10.

ghost use Rattle.std.specs.Prelude.{◌≡◌, ◌<◌};
ghost use Rattle.std.specs.Prelude.{if◌then◌else◌};
ghost use Rattle.refusal.specs.Refusal.{number_of};
ghost use Rattle.machine.specs.Access.{multiple_made};
ghost use Rattle.machine.specs.Machine.{written};
ghost use Rattle.lent.specs.Lent.{Moves, OfKind, ObeysMoving};
ghost use Rattle.access_arms.specs.Reaching.{loaded_in, Arrives};

use crate::back;
use crate::reach::Back;
use lent::bytes;
use record::{MultipleAccessFields, register};
use refusal::Refusal;
use setup::Setup;
use transfer::Alignment;

pub fn access_many(
    registers: &mut [u32; 16],
    ahead: u32,
    r: &[u8],
    memory: &mut [u8],
    setup: Setup,
) -> Result<(), Refusal>
    requires { OfKind 16 r.now }
    ensures { ObeysMoving (number_of result) registers.new memory.new registers.old ahead r.now memory.old setup }
{
    let d = kinds::multiple_access_from(bytes::first::<7>(r));
    let from = lent::read(registers, d.rn);
    let size = transfer::list_size_of(d.list);
    let low = transfer::lowest_address_of(d.op, from, size);
    transfer::refusal_of(Alignment::Word, size, setup, memory, low)?;
    let to = transfer::new_base_of(d.op, from, size);
    make_many(registers, ahead, d, to, low, memory, setup)
}

// All sixteen registers are kept: to store from, or to take back.
#[tactic(auto, using(crate::proofs::Laws::backed_where, crate::proofs::Laws::backed_parts, crate::proofs::Laws::list_fine, crate::proofs::Laws::list_back), unfolding(machine::specs::Access::multiple_made))]
fn make_many(
    registers: &mut [u32; 16],
    ahead: u32,
    d: MultipleAccessFields,
    to: u32,
    low: u32,
    memory: &mut [u8],
    setup: Setup,
) -> Result<(), Refusal>
    requires { d.rn < 16 }
    ensures { Moves (number_of result) registers.new memory.new registers.old ahead (λ m next. multiple_made m (if d.writeback then written next d.rn to else next) d low memory.old setup) }
{
    let before = *registers;
    let base = Back { rn: d.rn, to };
    back::write_back(registers, ahead, d.writeback.then_some(base));
    if d.op.loads() {
        if arrive_list(registers, d.list, low, memory, setup) {
            return Ok(());
        }
        *registers = before;
        return Err(Refusal::Unsteady);
    }
    if lent::is_steady(registers) {
        transfer::store_list(setup, memory, before, d.list, low);
        return Ok(());
    }
    *registers = before;
    Err(Refusal::Unsteady)
}

// Loads the list, and tells whether the machine may go on there: a value for R15 is odd, and R13 a multiple of 4. It asks, and refuses nothing: that and
// the taking back are `make_many`'s.
fn arrive_list(registers: &mut [u32; 16], list: u16, low: u32, memory: &[u8], setup: Setup) -> bool
    ensures { Arrives registers.old list low memory.now setup registers.new result }
{
    load_list(registers, list, low, memory, setup);
    let steady = lent::is_steady(registers);
    if register_list::holds(list, u32::from(register::PC)) {
        let slot = transfer::slot_of(list, low, register::PC);
        let value = memory::load_word(memory, setup, slot);
        return word::bit_of(0, value) & steady;
    }
    steady
}

// As `machine::access` loads a list; there a machine is written by value, by the definition that is believed, and here the registers are lent.
fn load_list(registers: &mut [u32; 16], list: u16, low: u32, memory: &[u8], setup: Setup)
    ensures { registers.new ≡ loaded_in 16 registers.old list low memory.now setup }
{
    let mut address = low;
    for i in 0..16u8 {
        let listed = register_list::holds(list, u32::from(i));
        if listed {
            let value = memory::load_word(memory, setup, address);
            lent::put(registers, i, value);
        }
        address = transfer::next_slot(listed, address);
    }
}
