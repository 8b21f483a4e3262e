// The layout of a listing: the walk along its records.

#![tactic(auto)]

ghost use Rattle.std.specs.Prelude.{◌≡◌};
ghost use Rattle.refusal.specs.Refusal.{number_of};
ghost use Rattle.layout.specs.Layout.{start, free, refusal_at, meets};
ghost use Rattle.layout.specs.Code.{in_64_bits, passed, seen, seen_of, seen_filled};

use flow::{Traits, Way};
use reading::Place;
use record::Record;
use refusal::Refusal;
use waiting::Waiting;

// An address counts machine bytes. That of the end may be past the last word.
#[derive(Clone, Copy, Debug, PartialEq, Eq)]
pub struct Address(pub u64);

// A point of the layout: where a record or the end stands, and which conditions wait there.
#[derive(Clone, Copy)]
pub struct Point {
    pub place: Place,
    pub address: Address,
    pub waiting: Waiting,
    // may a filler stand here?
    pub parted: bool,
}

#[tactic(auto, unfolding(crate::specs::Layout::start))]
pub fn start_of(base: u32) -> Point
    ensures { result ≡ start base }
{
    Point {
        place: Place(0),
        address: Address(base as u64),
        waiting: Waiting::nothing(),
        parted: true,
    }
}

#[tactic(auto, unfolding(crate::specs::Layout::free))]
pub fn is_free(point: Point) -> bool
    ensures { result ≡ free point }
{
    point.waiting.count() == 0
}

// What a pass takes from a point: where the record there goes, and the next point; nothing at the end.
#[tactic(auto, using(refusal::proofs::Laws::some_number), unfolding(crate::specs::Layout::meets, crate::specs::Layout::judged_at, crate::specs::Layout::next, crate::specs::Code::seen, crate::specs::Code::passed, flow::specs::Flow::machine_length, flow::specs::Flow::way, flow::specs::Flow::after))]
pub fn see(listing: &[u8], point: Point) -> Result<Option<(Way, Point)>, Refusal>
    ensures { seen_of result ≡ seen (meets listing.now point) }
{
    if point.place.0 == listing.len() {
        return Ok(None);
    }
    let (r, place) = reader::read_next(listing, point.place).ok_or(Refusal::Unreadable)?;
    refusal_at(r, point)?;
    let t = flow::traits_of(r);
    Ok(Some((t.way, next_of(t, place, point))))
}

#[tactic(auto, unfolding(crate::specs::Layout::refusal_at))]
fn refusal_at(r: Record, point: Point) -> Result<(), Refusal>
    ensures { number_of result ≡ refusal_at r point }
{
    if !flow::way_of(r).fills() {
        return judge::refusal_of(r, point.waiting.count());
    }
    if point.parted {
        Ok(())
    } else {
        Err(Refusal::Misplaced)
    }
}

#[tactic(auto, unfolding(crate::specs::Code::in_64_bits, crate::specs::Code::passed))]
fn next_of(t: Traits, place: Place, point: Point) -> Point
    ensures { result ≡ in_64_bits (passed t place point) }
{
    Point {
        place,
        address: Address(point.address.0.wrapping_add(t.length as u64)),
        waiting: flow::opened_of(t.opens, point.waiting),
        parted: t.parts & is_free(point),
    }
}

// Was it a filler that was seen?
#[tactic(auto, unfolding(crate::specs::Code::seen_filled))]
pub fn is_filled(seen: Result<Option<(Way, Point)>, Refusal>) -> bool
    ensures { result ≡ seen_filled (seen_of seen) }
{
    matches!(seen, Ok(Some((way, _))) if way.fills())
}
