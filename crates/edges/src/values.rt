// The edge values of docs/EDGES.md.

use product::Long;

pub const WORDS: [u32; 6] = [0, 1, 0x7fff_ffff, 0x8000_0000, 0xffff_ffff, 0xa5c3_0f96];

pub const AMOUNTS: [u32; 9] = [0, 1, 31, 32, 33, 64, 255, 256, 0xffff_ffff];

pub const TRUTHS: [bool; 2] = [false, true];

pub const CONSTANTS: [u32; 21] = [
    0,
    1,
    0x7fff_ffff,
    0x8000_0000,
    0xffff_ffff,
    0xa5c3_0f96,
    0xff,
    0x100,
    0x1fe,
    0x1ff,
    0x3fc0,
    0xff00,
    0x1_fe00,
    0xff_0000,
    0x7f80_0000,
    0xff00_0000,
    0x00ab_00ab,
    0xab00_ab00,
    0xabab_abab,
    0x00ab_00ac,
    0xf000_000f,
];

// The lowest bit of a field, and its width.
pub const FIELDS: [(u32, u32); 6] = [(0, 1), (0, 32), (1, 31), (8, 12), (16, 16), (31, 1)];

pub const ROTATIONS: [u32; 4] = [0, 8, 16, 24];

pub const LISTS: [u16; 5] = [0, 1, 0x8000, 0xffff, 0xa5c3];

pub const REGISTERS: [u32; 4] = [0, 1, 7, 15];

pub const SUMS: [Long; 4] = [
    Long { low: 0, high: 0 },
    Long {
        low: 1,
        high: 0x8000_0000,
    },
    Long {
        low: 0xffff_ffff,
        high: 0x7fff_ffff,
    },
    Long {
        low: 0xffff_ffff,
        high: 0xffff_ffff,
    },
];

pub const SIGNED_BITS: [u32; 4] = [1, 16, 31, 32];

pub const UNSIGNED_BITS: [u32; 4] = [0, 1, 16, 31];
