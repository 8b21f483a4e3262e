// The registers that the rules name: stack, link, and where the machine is.

pub const SP: u8 = 13;

pub const LR: u8 = 14;

pub const PC: u8 = 15;
