// What a record does to the way through a listing.

#![tactic(auto)]

ghost use Rattle.std.specs.Prelude.{◌≡◌};
ghost use Rattle.flow.specs.Flow.{form_length, to_pc, taken_if, going, passing, lone, parting, traits, machine_length, way, target, leaves, fills, misplaced, opened, after, own_condition};
ghost use Rattle.record.specs.declared.Record.TheVariants.{Branch, IfThen};

use record::op::DataOp;
use record::{BranchFields, Form, IfThenFields, Record, register};
use waiting::Waiting;

// Where a record goes.
#[derive(Clone, Copy, PartialEq, Eq)]
pub enum Way {
    // to the next record, by its length
    Next,
    // by an offset of its own
    Direct(i32),
    // where a register or memory says
    Taken,
    // nowhere: it is a filler, which is not stepped
    Fills,
}

impl Way {
    #[tactic(auto, unfolding(crate::specs::Flow::leaves))]
    pub fn leaves(self) -> bool
        ensures { result ≡ leaves self }
    {
        matches!(self, Way::Direct(_) | Way::Taken)
    }

    #[tactic(auto, unfolding(crate::specs::Flow::fills))]
    pub fn fills(self) -> bool
        ensures { result ≡ fills self }
    {
        matches!(self, Way::Fills)
    }

    // The target of a direct branch that stands at an address; 0 of any other record.
    #[tactic(auto, unfolding(crate::specs::Flow::target))]
    pub fn target(self, address: u32) -> u32
        ensures { result ≡ target address self }
    {
        match self {
            Way::Direct(offset) => address::offset_by(address.wrapping_add(4), offset),
            _ => 0,
        }
    }
}

// The block that an IT record opens.
#[derive(Clone, Copy)]
pub struct Block {
    pub condition: u8,
    pub count: u8,
    pub elses: u8,
}

// What a listing must know of a record.
#[derive(Clone, Copy)]
pub struct Traits {
    // in machine bytes
    pub length: u32,
    pub way: Way,
    // only where nothing waits?
    pub alone: bool,
    // the condition that rules it outside a block
    pub own: u8,
    pub opens: Option<Block>,
    // may a filler stand after it, where nothing waits at it?
    pub parts: bool,
}

// One match a record: a kind more is a row here.
#[tactic(auto, unfolding(crate::specs::Flow::traits))]
pub fn traits_of(r: Record) -> Traits
    ensures { result ≡ traits r }
{
    match r {
        Record::ShiftedRegister(d) => going_of(d.form, taken_if_of(to_pc_of(d.op, d.rd))),
        Record::Constant(d) => going_of(d.form, taken_if_of(to_pc_of(d.op, d.rd))),
        Record::RegisterShift(d) => passing_of(d.form),
        Record::AddNumber(d) => passing_of(d.form),
        Record::MoveNumber(d) => passing_of(d.form),
        Record::Unary(d) => passing_of(d.form),
        Record::Multiply(d) => lone_of(d.op.is_mul() & d.form.s, d.form, Way::Next),
        Record::LongMultiply(d) => passing_of(d.form),
        Record::Divide(d) => passing_of(d.form),
        Record::Saturate(d) => passing_of(d.form),
        Record::BitField(d) => passing_of(d.form),
        Record::Extend(d) => passing_of(d.form),
        Record::Access(d) => going_of(d.form, taken_if_of(d.op.is_ldr() & (d.rt == register::PC))),
        Record::IndexedAccess(d) => going_of(
            d.form,
            taken_if_of(d.op.is_ldr() & (d.rt == register::PC)),
        ),
        Record::DualAccess(d) => passing_of(d.form),
        Record::MultipleAccess(d) => {
            let leaves = d.op.loads() & register_list::holds(d.list, register::PC as u32);
            going_of(d.form, taken_if_of(leaves))
        }
        Record::Branch(d) => branch_traits_of(d),
        Record::RegisterBranch(d) => parting_of(!d.op.is_blx(), d.form),
        Record::CompareBranch(d) => lone_of(true, d.form, Way::Direct(d.offset as i32)),
        Record::IfThen(d) => if_then_traits_of(d),
        Record::Nop(form) => passing_of(form),
        Record::TableBranch(d) => parting_of(true, d.form),
        Record::Filler(number) => Traits {
            length: number as u32,
            way: Way::Fills,
            alone: false,
            own: 14,
            opens: None,
            parts: true,
        },
    }
}

#[tactic(auto, unfolding(crate::specs::Flow::traits))]
fn branch_traits_of(d: BranchFields) -> Traits
    ensures { result ≡ traits (Branch d) }
{
    let links = d.op.is_bl();
    Traits {
        length: form_length_of(d.form),
        way: Way::Direct(d.offset),
        alone: !links & (d.condition != 14),
        own: d.condition,
        opens: None,
        parts: !links & (d.condition == 14),
    }
}

#[tactic(auto, unfolding(crate::specs::Flow::traits))]
fn if_then_traits_of(d: IfThenFields) -> Traits
    ensures { result ≡ traits (IfThen d) }
{
    Traits {
        length: form_length_of(d.form),
        way: Way::Next,
        alone: true,
        own: 14,
        opens: Some(Block {
            condition: d.condition,
            count: d.count,
            elses: d.elses,
        }),
        parts: false,
    }
}

fn lone_of(test: bool, form: Form, way: Way) -> Traits
    ensures { result ≡ lone test form way }
{
    Traits {
        length: form_length_of(form),
        way,
        alone: test,
        own: 14,
        opens: None,
        parts: false,
    }
}

fn parting_of(test: bool, form: Form) -> Traits
    ensures { result ≡ parting test form }
{
    Traits {
        length: form_length_of(form),
        way: Way::Taken,
        alone: false,
        own: 14,
        opens: None,
        parts: test,
    }
}

fn going_of(form: Form, way: Way) -> Traits
    ensures { result ≡ going form way }
{
    lone_of(false, form, way)
}

fn passing_of(form: Form) -> Traits
    ensures { result ≡ passing form }
{
    lone_of(false, form, Way::Next)
}

fn form_length_of(form: Form) -> u32
    ensures { result ≡ form_length form }
{
    if form.wide { 4 } else { 2 }
}

fn to_pc_of(op: DataOp, rd: u8) -> bool
    ensures { result ≡ to_pc op rd }
{
    (rd == register::PC) & matches!(op, DataOp::Add | DataOp::Mov)
}

fn taken_if_of(test: bool) -> Way
    ensures { result ≡ taken_if test }
{
    if test { Way::Taken } else { Way::Next }
}

#[tactic(auto, unfolding(crate::specs::Flow::machine_length))]
pub fn machine_length_of(r: Record) -> u32
    ensures { result ≡ machine_length r }
{
    traits_of(r).length
}

#[tactic(auto, unfolding(crate::specs::Flow::way))]
pub fn way_of(r: Record) -> Way
    ensures { result ≡ way r }
{
    traits_of(r).way
}

// May the record not stand where so many conditions wait?
#[tactic(auto, unfolding(crate::specs::Flow::misplaced, crate::specs::Flow::way))]
pub fn is_misplaced(r: Record, waiting: u32) -> bool
    ensures { result ≡ misplaced r waiting }
{
    let t = traits_of(r);
    t.alone & (1 <= waiting) | t.way.leaves() & (2 <= waiting)
}

#[tactic(auto, unfolding(crate::specs::Flow::after))]
pub fn waiting_after(r: Record, w: Waiting) -> Waiting
    ensures { result ≡ after r w }
{
    opened_of(traits_of(r).opens, w)
}

// What waits after a record that opens this.
#[tactic(auto, unfolding(crate::specs::Flow::opened))]
pub fn opened_of(opens: Option<Block>, w: Waiting) -> Waiting
    ensures { result ≡ opened opens w }
{
    match opens {
        Some(block) => Waiting::block_of(block.condition, block.count, block.elses),
        None => w.drop_first(),
    }
}

// The condition that rules a record outside a block.
#[tactic(auto, unfolding(crate::specs::Flow::own_condition))]
pub fn own_condition_of(r: Record) -> u8
    ensures { result ≡ own_condition r }
{
    traits_of(r).own
}
