// The programs over their streams: what they read, and what they write of it.

#![tactic(auto)]

ghost use Rattle.std.specs.Prelude.{◌≡◌, ◌≤◌, length, take, drop, OnOk, IfSome, Some};
ghost use Rattle.std.specs.Io.KnownBytes.{Appends, Consumes};
ghost use Rattle.rehearsal.specs.Program.{program_budget, text_of};
ghost use Rattle.streams.specs.Streams.{listing_in, budget_in, listing_behind, places_text, places_of};

use reading::Place;
use std::io;
use std::io::{Read, Write};

// How many bytes were put at the front of a slice, and whether a read failed behind them.
#[derive(Drop)]
struct Filled {
    count: usize,
    read: io::Result<()>,
}

// The program of paper 01: a listing from the input, its text to the output, and where its run came to. A read that fails
// ends the input, and a write that fails is passed over; a failure is answered at the end.
pub fn rehearse<R: Read, W: Write, E: Write>(
    input: &mut R,
    output: &mut W,
    places: &mut E,
) -> io::Result<()>
    ensures text { OnOk result (IfSome (R.remaining input.old) (λ xs. Appends (W.contents output.old) (W.contents output.new) (text_of program_budget (listing_in xs)))) }
    ensures places { OnOk result (IfSome (R.remaining input.old) (λ xs. Appends (E.contents places.old) (E.contents places.new) (places_of program_budget (listing_in xs)))) }
{
    rehearse_within(rehearsal::BUDGET, input, output, places)
}

// The same with a budget of its user's: four bytes of the input, the lowest first; then the listing.
pub fn rehearse_paced<R: Read, W: Write, E: Write>(
    input: &mut R,
    output: &mut W,
    places: &mut E,
) -> io::Result<()>
    ensures text { OnOk result (IfSome (R.remaining input.old) (λ xs. Appends (W.contents output.old) (W.contents output.new) (text_of (budget_in xs) (listing_behind xs)))) }
    ensures places { OnOk result (IfSome (R.remaining input.old) (λ xs. Appends (E.contents places.old) (E.contents places.new) (places_of (budget_in xs) (listing_behind xs)))) }
{
    let mut head = [0u8; 4];
    let Filled { count, read } = read_full(input, &mut head);
    let budget = little::word_at(&head[..count], 0);
    let rest = rehearse_within(budget, input, output, places);
    read.and(rest)
}

// One byte over the limit tells that there are too many, and no more is read.
fn rehearse_within<R: Read, W: Write, E: Write>(
    budget: u32,
    input: &mut R,
    output: &mut W,
    places: &mut E,
) -> io::Result<()>
    ensures text { OnOk result (IfSome (R.remaining input.old) (λ xs. Appends (W.contents output.old) (W.contents output.new) (text_of budget (listing_in xs)))) }
    ensures places { OnOk result (IfSome (R.remaining input.old) (λ xs. Appends (E.contents places.old) (E.contents places.new) (places_of budget (listing_in xs)))) }
{
    let mut space = [0u8; 32769];
    let Filled { count, read } = read_full(input, &mut space);
    let mut room = [0u8; 256];
    let told = rehearsal::rehearse_within(budget, &space[..count], &mut room);
    let written = output.write_all(&room[..told.length]);
    let said = say(places, told.place, told.stored);
    let sent = written.and(said);
    read.and(sent)
}

// Reads until the slice is full, the input ends or a read fails.
// The library's `read_exact` fails where the input ends, and its `read_to_end` wants a heap, so the bytes are counted here.
fn read_full<R: Read>(from: &mut R, space: &mut [u8]) -> Filled
    ensures within { result.count ≤ length space.new }
    ensures taken { Consumes (R.remaining from.old) (R.remaining from.new) (take result.count space.new) }
    ensures filled { OnOk result.read (IfSome (R.remaining from.old) (λ xs. take result.count space.new ≡ take (length space.new) xs)) }
    ensures left { OnOk result.read (IfSome (R.remaining from.old) (λ xs. R.remaining from.new ≡ Some (drop (length space.new) xs))) }
{
    let mut count = 0;
    while count < space.len() {
        match from.read(&mut space[count..]) {
            Ok(0) => break,
            Ok(more) => count += more,
            Err(e) => {
                return Filled {
                    count,
                    read: Err(e),
                };
            }
        }
    }
    Filled {
        count,
        read: Ok(()),
    }
}

fn say<E: Write>(places: &mut E, place: Place, stored: Option<Place>) -> io::Result<()>
    ensures { OnOk result (Appends (E.contents places.old) (E.contents places.new) (places_text place.0 stored)) }
{
    let place = place.0;
    match stored {
        Some(next) => {
            let next = next.0;
            write!(places, "place {place}\nstored {next}\n")
        }
        None => write!(places, "place {place}\nstored none\n"),
    }
}
