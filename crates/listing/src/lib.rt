// The check of a listing.

#![tactic(auto)]

ghost use Rattle.std.specs.Prelude.{◌≡◌, ◌≤◌, eqb, length};
ghost use Rattle.std.specs.Prelude.{if◌then◌else◌};
ghost use Rattle.refusal.specs.Refusal.{number_of};
ghost use Rattle.listing.specs.Check.{report, end_fault, first_pass, checked};
ghost use Rattle.listing.specs.Code.{as_checked};

mod branch;

use layout::Point;
use reading::Place;
use refusal::Refusal;

// Why a listing is refused, and where.
#[derive(Clone, Copy, Debug, PartialEq, Eq)]
pub struct Misfit {
    pub refusal: Refusal,
    pub place: Place,
}

#[tactic(auto, unfolding(crate::specs::Check::checked))]
pub fn check(listing: &[u8], base: u32) -> Result<(), Misfit>
    ensures { as_checked result ≡ checked listing.now base }
{
    if (65536 < listing.len()) | word::bit_of(0, base) {
        return Err(Misfit {
            refusal: Refusal::Unfit,
            place: Place(0),
        });
    }
    first_pass_of(listing, base)?;
    branch::second_pass_of(listing, base)
}

fn first_pass_of(listing: &[u8], base: u32) -> Result<(), Misfit>
    requires { length listing.now ≤ 65536 }
    ensures { as_checked result ≡ first_pass listing.now base }
{
    let mut point = layout::start_of(base);
    for _ in 0..listing.len() + 1 {
        match layout::see(listing, point) {
            Ok(Some((_, next))) => point = next,
            Ok(None) => return report_of(end_fault_of(point), point.place),
            Err(refusal) => return report_of(Err(refusal), point.place),
        }
    }
    Ok(())
}

fn report_of(answer: Result<(), Refusal>, place: Place) -> Result<(), Misfit>
    ensures { as_checked result ≡ (if eqb (number_of answer) 0 then report 0 0 else report (number_of answer) place.0) }
{
    answer.map_err(|refusal| Misfit { refusal, place })
}

#[tactic(auto, unfolding(crate::specs::Check::end_fault))]
fn end_fault_of(point: Point) -> Result<(), Refusal>
    ensures { number_of result ≡ end_fault point }
{
    if !layout::is_free(point) {
        return Err(Refusal::Misplaced);
    }
    if 0xffff_fffe < point.address.0 {
        return Err(Refusal::Unfit);
    }
    Ok(())
}
