// Direct branches that go to no landing place.

ghost use Rattle.std.specs.Prelude.{◌≡◌, ◌≤◌, length};
ghost use Rattle.landing.specs.Code.{table, is_listed, Sorted, Tells};
ghost use Rattle.listing.specs.Check.{astray, first_pass, second_pass};
ghost use Rattle.listing.specs.Code.{as_checked};

use crate::Misfit;
use flow::Way;
use layout::Address;
use refusal::Refusal;

// Its tables stay out of the frame of the check, which refuses without them.
#[inline(never)]
pub fn second_pass_of(listing: &[u8], base: u32) -> Result<(), Misfit>
    requires { (length listing.now ≤ 65536) × ((first_pass listing.now base).number ≡ 0) }
    ensures { as_checked result ≡ second_pass listing.now base }
{
    let mut addresses = [0u32; 32769];
    let mut places = [0u32; 32769];
    let count = landing::list_all(listing, base, &mut addresses, &mut places);
    lowest_astray(listing, base, &addresses, &places, count)
}

fn lowest_astray(
    listing: &[u8],
    base: u32,
    addresses: &[u32],
    places: &[u32],
    count: usize,
) -> Result<(), Misfit>
    requires { ((first_pass listing.now base).number ≡ 0) × Tells (table addresses.now places.now count) listing.now base }
    ensures { as_checked result ≡ second_pass listing.now base }
{
    let mut point = layout::start_of(base);
    for _ in 0..listing.len() + 1 {
        match layout::see(listing, point) {
            Ok(Some((w, next))) => {
                if is_astray(addresses, places, count, w, point.address) {
                    return Err(Misfit {
                        refusal: Refusal::Astray,
                        place: point.place,
                    });
                }
                point = next;
            }
            Ok(None) => return Ok(()),
            Err(_) => return Ok(()),
        }
    }
    Ok(())
}

#[tactic(auto, unfolding(crate::specs::Check::astray))]
fn is_astray(addresses: &[u32], places: &[u32], count: usize, w: Way, address: Address) -> bool
    requires { Sorted (table addresses.now places.now count) }
    ensures { result ≡ astray (is_listed (table addresses.now places.now count)) w address.0 }
{
    match w {
        Way::Direct(_) => {
            let from = (address.0 % 0x1_0000_0000) as u32;
            let to = w.target(from);
            match landing::last_in_table(addresses, places, count, to) {
                Some(found) => found.address != to,
                None => true,
            }
        }
        Way::Next | Way::Taken | Way::Fills => false,
    }
}
