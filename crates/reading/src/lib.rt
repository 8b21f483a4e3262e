// Records out of bytes.

#![tactic(auto)]

ghost use Rattle.std.specs.Prelude.{◌≡◌, if◌then◌else◌, Some, None};
ghost use Rattle.fields.specs.Fields.{well_formed};
ghost use Rattle.reading.specs.Reading.{coded, named, read_one, part, read_at};

use record::Record;

// A place counts listing bytes.
#[derive(Clone, Copy, Debug, PartialEq, Eq)]
pub struct Place(pub usize);

// The numbers that stand for names: they are tested here, as bytes, before `kinds` makes names of them.
#[tactic(auto, unfolding(crate::specs::Reading::named))]
fn is_named(r: [u8; 9]) -> bool
    ensures { result ≡ named r }
{
    let kind = r[0];
    let filler = kind == 0x17;
    if filler {
        return true;
    }
    let without_op = (kind == 0x14) | (kind == 0x15);
    if without_op {
        return r[1] < 4;
    }
    (r[1] < kinds::names_of(kind)) & (r[2] < 4) & is_coded(r, kind)
}

// A shift, a mode, or whether the base is written back; by the byte of the kind (`kinds::record_from` says why).
#[tactic(auto, unfolding(crate::specs::Reading::coded))]
fn is_coded(r: [u8; 9], kind: u8) -> bool
    ensures { result ≡ coded r kind }
{
    match kind {
        0x01 => r[6] < 5,
        0x0a => r[6] < 5,
        0x0d => r[5] < 3,
        0x0f => r[6] < 3,
        0x10 => r[4] < 2,
        _ => true,
    }
}

pub fn read_all(r: &[u8]) -> Option<Record>
    ensures { result ≡ read_one r.now }
{
    let bytes = kinds::nine_of(r);
    let size = kinds::listing_length_of(bytes[0]);
    let whole = (r.len() == size as usize) & is_named(bytes);
    if whole {
        formed(kinds::record_from(bytes))
    } else {
        None
    }
}

fn formed(r: Record) -> Option<Record>
    ensures { result ≡ (if well_formed r then Some r else None) }
{
    fields::is_well_formed(r).then_some(r)
}

pub fn read_next(listing: &[u8], place: Place) -> Option<(Record, Place)>
    ensures { result ≡ read_at listing.now place.0 }
{
    let at = place.0;
    let size = kinds::listing_length_of(little::byte_at(listing, at)) as usize;
    let rest = listing.get(at..)?;
    let record = read_all(rest.get(..size)?)?;
    Some((record, Place(at + size)))
}

// The bytes at a place, as many as the kind there has.
pub fn part_of(listing: &[u8], place: Place) -> &[u8]
    ensures { result.now ≡ part listing.now place.0 }
{
    let at = place.0;
    let size = kinds::listing_length_of(little::byte_at(listing, at)) as usize;
    let rest = &listing[at.min(listing.len())..];
    &rest[..size.min(rest.len())]
}
