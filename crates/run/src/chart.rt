// An accepted listing, and where it can be landed on.

ghost use Rattle.std.proofs.Props.{props};
ghost use Rattle.landing.specs.Code.{table};
ghost use Rattle.run.specs.Chart.{Known};

#[derive(Clone, Copy)]
pub struct Chart<'a> {
    pub listing: &'a [u8],
    pub base: u32,
    pub addresses: &'a [u32],
    pub places: &'a [u32],
    pub count: usize,
    ghost known: { Known listing.now base (table addresses.now places.now count) } by { Prim.hlevel props },
}
