// The machine, and its step.

#![tactic(auto)]

pub mod access;
pub mod branch;
pub mod compute;

ghost use Rattle.std.specs.Prelude.{◌≡◌, Some};
ghost use Rattle.machine.specs.Machine.{fresh, held, operand_value, base_value, kept, written, with_flags, with_waiting, good, ruling, condition_passes, advanced, skipped, onward, steady, settled, answered, keeping};
ghost use Rattle.flags.specs.Flags.{passes};
ghost use Rattle.machine.specs.Step.{effect, obeyed, considered, stepped};

use flags::Flags;
use record::Record;
use refusal::Refusal;
use setup::Setup;
use waiting::Waiting;

#[derive(Clone, Copy)]
pub struct Machine {
    pub registers: [u32; 16],
    pub flags: Flags,
    pub waiting: Waiting,
}

impl Machine {
    pub const SP: u8 = record::register::SP;

    pub const LR: u8 = record::register::LR;

    pub const PC: u8 = record::register::PC;

    #[tactic(auto, unfolding(crate::specs::Machine::fresh))]
    pub fn new() -> Self
        ensures { result ≡ fresh }
    {
        Machine {
            registers: [0; 16],
            flags: Flags::none_set(),
            waiting: Waiting::nothing(),
        }
    }

    // What a register holds.
    #[tactic(auto, unfolding(crate::specs::Machine::held))]
    pub fn register(self, number: u8) -> u32
        ensures { result ≡ held self number }
    {
        let at = number as usize;
        if at < 16 { self.registers[at] } else { 0 }
    }

    // Every register is written here.
    #[tactic(auto, unfolding(crate::specs::Machine::written))]
    pub fn write(mut self, number: u8, value: u32) -> Self
        ensures { result ≡ written self number value }
    {
        let at = number as usize;
        let kept = kept_of(number, value);
        if at < 16 {
            self.registers[at] = kept;
        }
        self
    }

    #[tactic(auto, unfolding(crate::specs::Machine::operand_value))]
    pub fn operand(self, number: u8) -> u32
        ensures { result ≡ operand_value self number }
    {
        if number == Machine::PC {
            return self.register(Machine::PC).wrapping_add(4);
        }
        self.register(number)
    }

    // The base of a load or of kind 04.
    #[tactic(auto, unfolding(crate::specs::Machine::base_value))]
    pub fn base(self, number: u8) -> u32
        ensures { result ≡ base_value self number }
    {
        if number == Machine::PC {
            return address::word_base(self.operand(Machine::PC));
        }
        self.register(number)
    }

    #[tactic(auto, unfolding(crate::specs::Machine::with_flags))]
    pub fn with_flags(mut self, flags: Flags) -> Self
        ensures { result ≡ with_flags self flags }
    {
        self.flags = flags;
        self
    }

    #[tactic(auto, unfolding(crate::specs::Machine::with_waiting))]
    pub fn with_waiting(mut self, waiting: Waiting) -> Self
        ensures { result ≡ with_waiting self waiting }
    {
        self.waiting = waiting;
        self
    }

    #[tactic(auto, unfolding(crate::specs::Machine::good))]
    pub fn is_good(self) -> bool
        ensures { result ≡ good self }
    {
        (self.register(Machine::PC) % 2 == 0)
            & (self.register(Machine::SP) % 4 == 0)
            & self.waiting.is_good()
    }

    // Does the condition that rules a record pass?
    #[tactic(auto, unfolding(crate::specs::Machine::condition_passes))]
    pub fn passes(self, r: Record) -> bool
        ensures { result ≡ condition_passes self r }
    {
        self.passes_by(flow::own_condition_of(r))
    }

    // The same, of a record's own condition.
    fn passes_by(self, own: u8) -> bool
        ensures { result ≡ passes self.flags (ruling self.waiting own) }
    {
        self.flags.pass(ruling_of(self.waiting, own))
    }

    // The machine so many machine bytes on, at the next record.
    #[tactic(auto, unfolding(crate::specs::Machine::advanced))]
    fn advance(self, length: u32) -> Self
        ensures { result ≡ advanced self length }
    {
        let next = self.register(Machine::PC).wrapping_add(length);
        self.write(Machine::PC, next)
    }

    // Is R13 a multiple of 4?
    #[tactic(auto, unfolding(crate::specs::Machine::steady))]
    pub fn is_steady(self) -> bool
        ensures { result ≡ steady self }
    {
        self.register(Machine::SP) % 4 == 0
    }

    // The machine as a step leaves it, unless R13 would be no multiple of 4.
    #[tactic(auto, unfolding(crate::specs::Machine::settled))]
    pub fn settle(self) -> Result<Machine, Refusal>
        ensures { (m : Machine) → answered m result ≡ settled m self }
    {
        if self.is_steady() {
            Ok(self)
        } else {
            Err(Refusal::Unsteady)
        }
    }

    // One step: the machine after it, or why there is none.
    #[tactic(auto, unfolding(crate::specs::Step::stepped, crate::specs::Step::considered))]
    pub fn step(self, r: &[u8], memory: &mut [u8], setup: Setup) -> Result<Machine, Refusal>
        ensures { keeping (answered self result) memory.new ≡ stepped self r.now memory.old setup }
    {
        if !(self.is_good() & setup::is_fit(memory, setup)) {
            return Err(Refusal::Unfit);
        }
        let found = reading::read_all(r).ok_or(Refusal::Unreadable)?;
        self.consider(found, memory, setup)
    }

    #[tactic(auto, unfolding(crate::specs::Step::considered))]
    fn consider(self, r: Record, memory: &mut [u8], setup: Setup) -> Result<Machine, Refusal>
        ensures { keeping (answered self result) memory.new ≡ considered self (Some r) memory.old setup }
    {
        judge::refusal_of(r, self.waiting.count())?;
        self.obey(r, memory, setup)
    }

    // The step of a record that 1 to 4 don't apply to.
    #[tactic(auto, unfolding(crate::specs::Step::obeyed, crate::specs::Machine::condition_passes, crate::specs::Machine::onward, crate::specs::Machine::skipped, flow::specs::Flow::machine_length, flow::specs::Flow::after, flow::specs::Flow::own_condition, flow::specs::Flow::traits))]
    pub fn obey(self, r: Record, memory: &mut [u8], setup: Setup) -> Result<Machine, Refusal>
        ensures { keeping (answered self result) memory.new ≡ obeyed self r memory.old setup }
    {
        let t = flow::traits_of(r);
        let ahead = self.advance(t.length);
        if self.passes_by(t.own) {
            let next = ahead.with_waiting(flow::opened_of(t.opens, self.waiting));
            return take_effect(self, next, r, memory, setup);
        }
        Ok(ahead.with_waiting(self.waiting.drop_first()))
    }
}

// What a register keeps of a value: R15 has bit 0 cleared.
#[tactic(auto, unfolding(crate::specs::Machine::kept))]
fn kept_of(number: u8, value: u32) -> u32
    ensures { result ≡ kept number value }
{
    if number == Machine::PC {
        return address::even(value);
    }
    value
}

#[tactic(auto, unfolding(crate::specs::Machine::ruling))]
fn ruling_of(waiting: Waiting, own: u8) -> u8
    ensures { result ≡ ruling waiting own }
{
    if waiting.first == Waiting::NONE {
        return own;
    }
    waiting.first
}

#[tactic(auto, unfolding(crate::specs::Step::effect))]
fn take_effect(
    m: Machine,
    next: Machine,
    r: Record,
    memory: &mut [u8],
    setup: Setup,
) -> Result<Machine, Refusal>
    ensures { keeping (answered m result) memory.new ≡ effect m next r memory.old setup }
{
    match r {
        Record::ShiftedRegister(d) => compute::shift_register(m, next, d),
        Record::Constant(d) => compute::operate_constant(m, next, d),
        Record::RegisterShift(d) => compute::shift_by_register(m, next, d),
        Record::AddNumber(d) => compute::add_a_number(m, next, d),
        Record::MoveNumber(d) => compute::move_a_number(m, next, d),
        Record::Unary(d) => compute::operate_unary(m, next, d),
        Record::Multiply(d) => compute::multiply(m, next, d),
        Record::LongMultiply(d) => compute::multiply_long(m, next, d),
        Record::Divide(d) => compute::divide(m, next, d),
        Record::Saturate(d) => compute::saturate(m, next, d),
        Record::BitField(d) => compute::set_field(m, next, d),
        Record::Extend(d) => compute::extend(m, next, d),
        Record::Access(d) => access::access_one(m, next, d, memory, setup),
        Record::IndexedAccess(d) => access::access_indexed(m, next, d, memory, setup),
        Record::DualAccess(d) => access::access_two(m, next, d, memory, setup),
        Record::MultipleAccess(d) => access::access_many(m, next, d, memory, setup),
        Record::Branch(d) => branch::branch_off(m, next, d),
        Record::RegisterBranch(d) => branch::branch_to_register(m, next, d),
        Record::CompareBranch(d) => branch::compare_and_branch(m, next, d),
        Record::IfThen(_) => Ok(next),
        Record::Nop(_) => Ok(next),
        Record::TableBranch(d) => branch::branch_by_table(m, next, d, memory, setup),
        Record::Filler(_) => Ok(next),
    }
}
