// A value as the panel shows it, by shifts on its 64-bit pattern: 17 beyond ±2^53, infinite or NaN; else the whole number nearest to it, ties to even.
#![tactic(auto)]

ghost use Rattle.std.specs.Prelude.{◌≡◌, ◌<◌, ◌≤◌, ◌^◌, pos};
ghost use Rattle.std.specs.Float.{binary64};
ghost use Rattle.std.specs.Float.Ieee.{of_bits};
ghost use Rattle.std.specs.Float.Ieee.Nearest.{closest};
ghost use Rattle.model.specs.Figure.{nearest_whole, shown_value, panel_reply};

// The pattern of 2^53.
const LIMIT: u64 = 0x4340_0000_0000_0000;

// The sign's bit.
const SIGN: u64 = 0x8000_0000_0000_0000;

// A unit of the exponent's field, above the 52 digits.
const ONE: u64 = 0x10_0000_0000_0000;

// The exponent's field of a half, and the first where all 52 digits stand before the point.
const HALF: u64 = 1022;

const WHOLE: u64 = 1075;

// whole / 2^shift to the nearest whole number, ties to even: just under a half is added, a unit more where the whole part is odd.
fn nearest_shifted(whole: u64, shift: u64) -> u64
    requires { (whole < 0x20_0000_0000_0000) × ((1 ≤ shift) × (shift ≤ 53)) }
    ensures { result ≡ closest whole (2 ^ shift) }
{
    let down = whole >> shift;
    let half = 1 << (shift - 1);
    (whole + (half - 1) + down % 2) >> shift
}

// The whole number nearest to a value of at most 2^53, by its pattern without the sign.
fn nearest_size(size: u64) -> u64
    requires { size ≤ 0x4340_0000_0000_0000 }
    ensures { (pos result ≡ nearest_whole (of_bits binary64 size)) × (result ≤ 0x20_0000_0000_0000) }
{
    let exponent = size / ONE;
    if exponent < HALF {
        return 0;
    }
    let whole = ONE + size % ONE;
    if WHOLE <= exponent {
        return whole << (exponent - WHOLE);
    }
    nearest_shifted(whole, WHOLE - exponent)
}

// A value on the panel.
pub fn panel_of(bits: u64) -> Result<Option<i64>, model::Refusal>
    ensures { panel_reply result ≡ shown_value (of_bits binary64 bits) }
{
    let size = bits % SIGN;
    if LIMIT < size {
        return Err(model::Refusal::OffPanel);
    }
    let whole = nearest_size(size) as i64;
    if bits < SIGN {
        return Ok(Some(whole));
    }
    Ok(Some(-whole))
}
