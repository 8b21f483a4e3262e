// AND ORR EOR BIC ORN MVN on words.

#![tactic(auto)]

ghost use Rattle.std.specs.Prelude.{◌≡◌};
ghost use Rattle.logic.specs.Logic.{AND, ORR, EOR, BIC, ORN, MVN};

pub fn and(x: u32, y: u32) -> u32
    ensures { result ≡ AND x y }
{
    x & y
}

pub fn orr(x: u32, y: u32) -> u32
    ensures { result ≡ ORR x y }
{
    x | y
}

pub fn eor(x: u32, y: u32) -> u32
    ensures { result ≡ EOR x y }
{
    x ^ y
}

pub fn bic(x: u32, y: u32) -> u32
    ensures { result ≡ BIC x y }
{
    x & !y
}

pub fn orn(x: u32, y: u32) -> u32
    ensures { result ≡ ORN x y }
{
    x | !y
}

pub fn mvn(x: u32) -> u32
    ensures { result ≡ MVN x }
{
    !x
}
