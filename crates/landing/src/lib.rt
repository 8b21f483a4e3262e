// Landing places: a table of their addresses, which rise, and of their places; or one list of both. They are searched by halves.

#![tactic(auto)]

ghost use Rattle.std.specs.Prelude.{◌≡◌, ◌≤◌, length};
ghost use Rattle.layout.specs.Code.{seen_of};
ghost use Rattle.landing.specs.Code.{table, table_left, lands_seen, entered, tabled, addresses_by_halves, last_in_table, by_halves, last_to};

use flow::Way;
use layout::Point;
use reading::Place;
use refusal::Refusal;

#[derive(Clone, Copy, Debug, PartialEq, Eq)]
pub struct Landing {
    pub address: u32,
    pub place: Place,
}

// An entry for each landing place, in order, while there is room for it, and how many these are. A listing has at most 32,769: of 32,768
// records, as each has two bytes or more, and of the end. One that is over its limit has none.
pub fn list_all(listing: &[u8], base: u32, addresses: &mut [u32], places: &mut [u32]) -> usize
    ensures { table_left result addresses.new places.new ≡ tabled listing.now base (table addresses.old places.old 0) }
{
    if 65536 < listing.len() {
        return 0;
    }
    let mut point = layout::start_of(base);
    let mut count = 0;
    for _ in 0..listing.len() + 1 {
        let seen = layout::see(listing, point);
        count = enter(addresses, places, count, point, is_landing(point, seen));
        match seen {
            Ok(Some((_, next))) => point = next,
            Ok(None) => return count,
            Err(_) => return count,
        }
    }
    count
}

// Is it a landing place at which this was seen?
#[tactic(auto, unfolding(crate::specs::Code::lands_seen))]
fn is_landing(point: Point, seen: Result<Option<(Way, Point)>, Refusal>) -> bool
    ensures { result ≡ lands_seen point (seen_of seen) }
{
    layout::is_free(point) & !layout::is_filled(seen)
}

#[tactic(auto, unfolding(crate::specs::Code::entered))]
fn enter(
    addresses: &mut [u32],
    places: &mut [u32],
    count: usize,
    point: Point,
    lands: bool,
) -> usize
    ensures { table addresses.new places.new result ≡ entered lands point (table addresses.old places.old count) }
{
    if lands & (count < addresses.len()) & (count < places.len()) {
        addresses[count] = (point.address.0 % 0x1_0000_0000) as u32;
        places[count] = (point.place.0 % 0x1_0000_0000) as u32;
        return count + 1;
    }
    count
}

// The last landing place that is not above an address, of a table with so many entries.
pub fn last_in_table(
    addresses: &[u32],
    places: &[u32],
    count: usize,
    address: u32,
) -> Option<Landing>
    ensures { result ≡ last_in_table (table addresses.now places.now count) address }
{
    let all = count.min(addresses.len().min(places.len()));
    let at = entries_to(addresses, all, address);
    if at == 0 {
        return None;
    }
    Some(Landing {
        address: addresses[at - 1],
        place: Place(places[at - 1] as usize),
    })
}

// How many entries are not above an address, by halves: those before `low` are not, those from `high` on are. The library's `partition_point`
// says nothing of entries that do not rise.
fn entries_to(addresses: &[u32], count: usize, address: u32) -> usize
    requires { count ≤ length addresses.now }
    ensures { result ≡ addresses_by_halves count addresses.now address 0 count }
{
    let mut low = 0;
    let mut high = count;
    while low < high {
        let middle = low + (high - low) / 2;
        if addresses[middle] <= address {
            low = middle + 1;
        } else {
            high = middle;
        }
    }
    low
}

// The same of landing places in one list.
pub fn last_to(landings: &[Landing], address: u32) -> Option<Landing>
    ensures { result ≡ last_to landings.now address }
{
    let passed = landings_to(landings, address);
    if passed == 0 {
        return None;
    }
    Some(landings[passed - 1])
}

// As `entries_to`.
fn landings_to(landings: &[Landing], address: u32) -> usize
    ensures { result ≡ by_halves (length landings.now) landings.now address 0 (length landings.now) }
{
    let mut from = 0;
    let mut to = landings.len();
    while from < to {
        let middle = from + (to - from) / 2;
        if landings[middle].address <= address {
            from = middle + 1;
        } else {
            to = middle;
        }
    }
    from
}

#[cfg(test)]
mod tests {
    use super::*;

    const LANDINGS: [Landing; 3] = [
        Landing {
            address: 0x1000,
            place: Place(0),
        },
        Landing {
            address: 0x1002,
            place: Place(2),
        },
        Landing {
            address: 0x1006,
            place: Place(11),
        },
    ];

    // Worked by hand: an address, and the last entry that is not above it.
    const FOUND: [(u32, Option<(u32, Place)>); 8] = [
        (0, None),
        (0x0fff, None),
        (0x1000, Some((0x1000, Place(0)))),
        (0x1001, Some((0x1000, Place(0)))),
        (0x1002, Some((0x1002, Place(2)))),
        (0x1005, Some((0x1002, Place(2)))),
        (0x1006, Some((0x1006, Place(11)))),
        (0xffff_ffff, Some((0x1006, Place(11)))),
    ];

    #[test]
    fn last_to_finds_the_last_not_above() -> Result<(), u32> {
        for (address, found) in FOUND {
            if last_to(&LANDINGS, address).map(|l| (l.address, l.place)) != found {
                return Err(address);
            }
        }
        match last_to(&[], 0xffff_ffff) {
            Some(l) => Err(l.address),
            None => Ok(()),
        }
    }
}
