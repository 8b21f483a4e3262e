// BFC BFI SBFX UBFX, and SXTB SXTH UXTB UXTH after a rotation.

#![tactic(auto)]

ghost use Rattle.std.specs.Prelude.{◌≡◌};
ghost use Rattle.field.specs.Field.{UBFX, SBFX, BFI, BFC, SXTB, SXTH, UXTB, UXTH};

pub fn ubfx(x: u32, lsb: u32, width: u32) -> u32
    ensures { result ≡ UBFX x lsb width }
{
    if lsb >= 32 {
        return 0;
    }
    (x >> lsb) & word::ones(width)
}

pub fn sbfx(x: u32, lsb: u32, width: u32) -> u32
    ensures { result ≡ SBFX x lsb width }
{
    let field = ubfx(x, lsb, width);
    if width == 0 {
        return field;
    }
    if word::bit_of(width - 1, field) {
        return field | !word::ones(width);
    }
    field
}

pub fn bfi(d: u32, x: u32, lsb: u32, width: u32) -> u32
    ensures { result ≡ BFI d x lsb width }
{
    if lsb >= 32 {
        return d;
    }
    let mask = word::ones(width) << lsb;
    ((x << lsb) & mask) | (d & !mask)
}

pub fn bfc(d: u32, lsb: u32, width: u32) -> u32
    ensures { result ≡ BFC d lsb width }
{
    bfi(d, 0, lsb, width)
}

// These four are the instructions by name over what they share; one function of a width and a sign would be called with constants at each.
pub fn sxtb(x: u32, rotation: u32) -> u32
    ensures { result ≡ SXTB x rotation }
{
    sbfx(shift::rotate_right(x, rotation), 0, 8)
}

pub fn sxth(x: u32, rotation: u32) -> u32
    ensures { result ≡ SXTH x rotation }
{
    sbfx(shift::rotate_right(x, rotation), 0, 16)
}

pub fn uxtb(x: u32, rotation: u32) -> u32
    ensures { result ≡ UXTB x rotation }
{
    ubfx(shift::rotate_right(x, rotation), 0, 8)
}

pub fn uxth(x: u32, rotation: u32) -> u32
    ensures { result ≡ UXTH x rotation }
{
    ubfx(shift::rotate_right(x, rotation), 0, 16)
}
