// Kinds 0D to 10 in a run: registers and memory are lent, and the fields come from the bytes of a record that the check has passed. Nothing
// is stored before every test is passed.

#![tactic(auto)]

mod back;
pub mod many;
pub mod reach;

ghost use Rattle.std.specs.Prelude.{◌<◌};
ghost use Rattle.refusal.specs.Refusal.{number_of};
ghost use Rattle.machine.specs.Access.{based, arriving, access_made, access_done, dual_made};
ghost use Rattle.lent.specs.Lent.{GoesOn, Moves, OfKind, ObeysMoving};
ghost use Rattle.access_arms.specs.Reaching.{Accesses, Reaches, backed};

use lent::bytes;
use reach::{Back, Reach};
use record::{DualAccessFields, register};
use refusal::Refusal;
use setup::Setup;
use transfer::Alignment;

// Kinds 0D and 0E.
pub fn access_one(
    registers: &mut [u32; 16],
    ahead: u32,
    r: &[u8],
    memory: &mut [u8],
    setup: Setup,
) -> Result<(), Refusal>
    requires { Accesses r.now }
    ensures { ObeysMoving (number_of result) registers.new memory.new registers.old ahead r.now memory.old setup }
{
    reach_of(registers, r).access(registers, ahead, memory, setup)
}

// By the byte of the kind (`kinds::record_from` says why).
fn reach_of(registers: &[u32; 16], r: &[u8]) -> Reach
    requires { Accesses r.now }
    ensures { Reaches registers.now r.now result }
{
    if r[0] == 13 {
        return offset_reach_of(registers, r);
    }
    indexed_reach_of(registers, r)
}

fn offset_reach_of(registers: &[u32; 16], r: &[u8]) -> Reach
    requires { OfKind 13 r.now }
    ensures { Reaches registers.now r.now result }
{
    let d = kinds::access_from(bytes::first::<8>(r));
    let from = lent::base(registers, d.rn);
    let to = transfer::moved_by(from, d.offset);
    let base = Back { rn: d.rn, to };
    Reach {
        op: d.op,
        back: (!d.mode.is_offset()).then_some(base),
        rt: d.rt,
        address: transfer::reached_of(d.mode, from, to),
    }
}

fn indexed_reach_of(registers: &[u32; 16], r: &[u8]) -> Reach
    requires { OfKind 14 r.now }
    ensures { Reaches registers.now r.now result }
{
    let d = kinds::indexed_access_from(bytes::first::<7>(r));
    let offset = shift::lsl(lent::operand(registers, d.rm), u32::from(d.amount), false);
    let address = lent::base(registers, d.rn).wrapping_add(offset.value);
    Reach {
        op: d.op,
        back: None,
        rt: d.rt,
        address,
    }
}

impl Reach {
    #[tactic(auto, using(crate::proofs::Laws::granted, crate::proofs::Laws::declined), unfolding(machine::specs::Access::access_done))]
    fn access(
        self,
        registers: &mut [u32; 16],
        ahead: u32,
        memory: &mut [u8],
        setup: Setup,
    ) -> Result<(), Refusal>
        ensures { Moves (number_of result) registers.new memory.new registers.old ahead (λ m next. access_done m (backed next self.back) self.op self.rt self.address memory.old setup) }
    {
        let wanted = transfer::alignment_of(self.op, self.rt == register::PC);
        let width = transfer::width_of(self.op);
        transfer::refusal_of(wanted, width, setup, memory, self.address)?;
        self.make(registers, ahead, memory, setup)
    }

    #[tactic(auto, using(crate::proofs::Laws::backed_parts, lent::proofs::Laws::storing_back), unfolding(machine::specs::Access::access_made))]
    fn make(
        self,
        registers: &mut [u32; 16],
        ahead: u32,
        memory: &mut [u8],
        setup: Setup,
    ) -> Result<(), Refusal>
        ensures { Moves (number_of result) registers.new memory.new registers.old ahead (λ m next. access_made m (backed next self.back) self.op self.rt self.address memory.old setup) }
    {
        if self.op.loads() {
            let value = transfer::load(self.op, setup, memory, self.address);
            return self.arrive(registers, ahead, value);
        }
        let value = lent::read(registers, self.rt);
        back::settle(registers, ahead, self.back)?;
        transfer::store(self.op, setup, memory, self.address, value);
        Ok(())
    }

    #[tactic(auto, using(crate::proofs::Laws::lost), unfolding(machine::specs::Machine::refused))]
    fn arrive(self, registers: &mut [u32; 16], ahead: u32, value: u32) -> Result<(), Refusal>
        ensures { GoesOn (number_of result) registers.new registers.old ahead (λ m next. arriving m (backed next self.back) self.rt value) }
    {
        if self.rt == register::PC && !word::bit_of(0, value) {
            return Err(Refusal::Unsteady);
        }
        back::settle_load(registers, ahead, self.back, self.rt, value)
    }
}

// 0F
pub fn access_two(
    registers: &mut [u32; 16],
    ahead: u32,
    r: &[u8],
    memory: &mut [u8],
    setup: Setup,
) -> Result<(), Refusal>
    requires { OfKind 15 r.now }
    ensures { ObeysMoving (number_of result) registers.new memory.new registers.old ahead r.now memory.old setup }
{
    let d = kinds::dual_access_from(bytes::first::<9>(r));
    let from = lent::base(registers, d.rn);
    let to = transfer::moved_by(from, d.offset);
    let address = transfer::reached_of(d.mode, from, to);
    transfer::refusal_of(Alignment::Word, 8, setup, memory, address)?;
    make_two(registers, ahead, d, to, address, memory, setup)
}

fn make_two(
    registers: &mut [u32; 16],
    ahead: u32,
    d: DualAccessFields,
    to: u32,
    address: u32,
    memory: &mut [u8],
    setup: Setup,
) -> Result<(), Refusal>
    requires { (d.rn < 16) × (d.rt < 16) × (d.rt2 < 16) }
    ensures { Moves (number_of result) registers.new memory.new registers.old ahead (λ m next. dual_made m (based next d.mode d.rn to) d address memory.old setup) }
{
    let base = Back { rn: d.rn, to };
    let back = (!d.mode.is_offset()).then_some(base);
    let second = address.wrapping_add(4);
    if d.op.loads() {
        let low = memory::load_word(memory, setup, address);
        let high = memory::load_word(memory, setup, second);
        return back::settle_dual(registers, ahead, back, d.rt, low, d.rt2, high);
    }
    let low = lent::read(registers, d.rt);
    let high = lent::read(registers, d.rt2);
    back::settle(registers, ahead, back)?;
    memory::store_word(memory, setup, address, low);
    memory::store_word(memory, setup, second, high);
    Ok(())
}
