// Where a machine is: the place of the record at R15, and the conditions that the layout gives there.

ghost use Rattle.std.specs.Prelude.{◌≡◌};
ghost use Rattle.layout.specs.Layout.{meets};
ghost use Rattle.waiting.specs.Waiting.{nothing};
ghost use Rattle.run.specs.Code.{seat, seat_at, sat, Ahead};

use crate::chart::Chart;
use layout::{Address, Point};
use reading::Place;
use waiting::Waiting;

#[derive(Clone, Copy)]
pub struct Seat {
    pub stored: Option<Place>,
    pub due: Waiting,
}

impl Chart<'_> {
    // The last landing place that is not above an address is at most four records before what stands there.
    pub fn find(&self, address: u32) -> Seat
        ensures { result ≡ seat_at self.now.listing.now self.now.base address }
    {
        match landing::last_in_table(self.addresses, self.places, self.count, address) {
            Some(found) => {
                let point = Point {
                    place: found.place,
                    address: Address(found.address as u64),
                    waiting: Waiting::nothing(),
                    parted: false,
                };
                if found.address == address {
                    return seat_at(point);
                }
                self.seek(point, address)
            }
            None => self.seek(layout::start_of(self.base), address),
        }
    }

    // Along records to an address: its bound is no count, so this is no `for`.
    fn seek(&self, from: Point, address: u32) -> Seat
        requires { Ahead self.now.listing.now self.now.base address from }
        ensures { result ≡ seat_at self.now.listing.now self.now.base address }
    {
        let mut point = from;
        while point.address.0 < address as u64 {
            match layout::see(self.listing, point) {
                Ok(Some((_, next))) => point = next,
                Ok(None) => return no_seat(),
                Err(_) => return no_seat(),
            }
        }
        if point.address.0 == address as u64 {
            return sit(self.listing, point);
        }
        no_seat()
    }
}

fn sit(listing: &[u8], point: Point) -> Seat
    ensures { result ≡ sat (meets listing.now point) point }
{
    if layout::is_filled(layout::see(listing, point)) {
        return no_seat();
    }
    seat_at(point)
}

fn seat_at(point: Point) -> Seat
    ensures { result ≡ seat (Some point.place) point.waiting }
{
    Seat {
        stored: Some(point.place),
        due: point.waiting,
    }
}

fn no_seat() -> Seat
    ensures { result ≡ seat None nothing }
{
    Seat {
        stored: None,
        due: Waiting::nothing(),
    }
}
