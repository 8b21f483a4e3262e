// The program of paper 01: reads a listing from standard input and writes its check's line, or how its run ended.

#![tactic(auto)]

// Paper 01 fixes what standard output has: the places go to standard error. What fails is passed over.
fn main(rt: HostRuntime) {
    let _ = streams::rehearse(&mut rt.stdin(), &mut rt.stdout(), &mut rt.stderr());
}
