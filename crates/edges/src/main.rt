// Puts edge values through every operation of the arithmetic and writes a line for each: docs/EDGES.md has the table.

#![tactic(auto)]

mod lines;
mod values;
mod write;

use lines::{fields, long, long_sums, pairs, saturated, shifts, sums, triples, words};
use values::{ROTATIONS, SIGNED_BITS, UNSIGNED_BITS, WORDS};

fn main(rt: HostRuntime) {
    sums(&rt, b"SUM", sum::add_with_carry);
    sums(&rt, b"DIFF", sum::subtract_with_carry);
    logic(&rt);
    shifted(&rt);
    lines::constants(&rt);
    reversed(&rt);
    products(&rt);
    pairs(&rt, b"UDIV", &WORDS, quotient::udiv);
    pairs(&rt, b"SDIV", &WORDS, quotient::sdiv);
    saturated(&rt, b"SSAT", &SIGNED_BITS, saturate::ssat);
    saturated(&rt, b"USAT", &UNSIGNED_BITS, saturate::usat);
    parts(&rt);
    addresses(&rt);
}

fn logic(out: &impl Print) {
    pairs(out, b"AND", &WORDS, logic::and);
    pairs(out, b"ORR", &WORDS, logic::orr);
    pairs(out, b"EOR", &WORDS, logic::eor);
    pairs(out, b"BIC", &WORDS, logic::bic);
    pairs(out, b"ORN", &WORDS, logic::orn);
    words(out, b"MVN", logic::mvn);
}

fn shifted(out: &impl Print) {
    shifts(out, b"LSL", shift::lsl);
    shifts(out, b"LSR", shift::lsr);
    shifts(out, b"ASR", shift::asr);
    shifts(out, b"ROR", shift::ror);
    lines::rrx(out);
}

fn reversed(out: &impl Print) {
    words(out, b"CLZ", reverse::clz);
    words(out, b"REV", reverse::rev);
    words(out, b"REV16", reverse::rev16);
    words(out, b"REVSH", reverse::revsh);
    words(out, b"RBIT", reverse::rbit);
}

fn products(out: &impl Print) {
    pairs(out, b"MUL", &WORDS, product::mul);
    triples(out, b"MLA", product::mla);
    triples(out, b"MLS", product::mls);
    long(out, b"UMULL", product::umull);
    long(out, b"SMULL", product::smull);
    long_sums(out, b"UMLAL", product::umlal);
    long_sums(out, b"SMLAL", product::smlal);
}

fn parts(out: &impl Print) {
    fields(out, b"BFC", field::bfc);
    fields(out, b"SBFX", field::sbfx);
    fields(out, b"UBFX", field::ubfx);
    lines::inserted(out);
    pairs(out, b"SXTB", &ROTATIONS, field::sxtb);
    pairs(out, b"SXTH", &ROTATIONS, field::sxth);
    pairs(out, b"UXTB", &ROTATIONS, field::uxtb);
    pairs(out, b"UXTH", &ROTATIONS, field::uxth);
}

fn addresses(out: &impl Print) {
    words(out, b"EVEN", address::even);
    words(out, b"LINK", address::link);
    words(out, b"BASE", address::word_base);
    pairs(
        out,
        b"MOVED",
        &WORDS,
        |x, by| address::offset_by(x, word::signed_of(by)),
    );
    lines::counts(out);
    lines::members(out);
}
