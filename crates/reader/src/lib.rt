// The listing is walked by a reader that holds the lent listing and its place.

#![tactic(auto)]

ghost use Rattle.std.specs.Prelude.{◌≡◌};
ghost use Rattle.reading.specs.Reading.{read_at};

use reading::Place;
use record::Record;

#[derive(Clone, Copy)]
pub struct Reader<'a> {
    pub listing: &'a [u8],
    pub place: Place,
}

impl<'a> Reader<'a> {
    // The record at its place, and the place after it.
    pub fn next(self) -> Option<(Record, Place)>
        ensures { result ≡ read_at self.entry.listing.now self.entry.place.0 }
    {
        reading::read_next(self.listing, self.place)
    }
}

// The same, for callers that hold no reader.
pub fn read_next(listing: &[u8], place: Place) -> Option<(Record, Place)>
    ensures { result ≡ read_at listing.now place.0 }
{
    Reader { listing, place }.next()
}
