// The program of paper 01 with a budget of its user's: four bytes of standard input, the lowest first; then the listing.

#![tactic(auto)]

// Paper 01 fixes what standard output has: the places go to standard error. What fails is passed over.
fn main(rt: HostRuntime) {
    let _ = streams::rehearse_paced(&mut rt.stdin(), &mut rt.stdout(), &mut rt.stderr());
}
