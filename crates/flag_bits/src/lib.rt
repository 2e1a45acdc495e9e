// The wrap flags as one number, as they cross the edge to C: bit i is row i's flag. Every number stands for some flags, so a caller can lend any.
#![tactic(auto)]

ghost use Rattle.std.specs.Prelude.{◌≡◌, true, false, ◌<◌, ◌≤◌, get_or, set};
ghost use Rattle.flag_bits.specs.Bits.{bits, bit_of, number};

// The flags of a number: row i's is its bit i.
pub fn flags_of(number: u32) -> model::Flags
    ensures { result.wrapped ≡ bits 32 number }
{
    let mut wrapped = [false; 32];
    let mut rest = number;
    for i in 0..32 {
        wrapped[i] = rest % 2 == 1;
        rest /= 2;
    }
    model::Flags { wrapped }
}

// A flag as a bit.
fn bit_of(flag: bool) -> u32
    ensures { (result ≡ bit_of flag) × (result ≤ 1) }
{
    u32::from(flag)
}

// The number of these flags, built from the last to the first: `flags_of` gives them back.
pub fn number_of(flags: model::Flags) -> u32
    ensures { (result ≡ number flags.wrapped) × (bits 32 result ≡ flags.wrapped) }
{
    let mut x = 0;
    for flag in flags.wrapped.iter().rev() {
        x = bit_of(*flag) + 2 * x;
    }
    x
}

// A row's flag.
pub fn flag_at(number: u32, row: usize) -> bool
    requires { row < 32 }
    ensures { result ≡ get_or (bits 32 number) row false }
{
    (number >> row) % 2 == 1
}

// The number with a row's flag set to `flag`. A flag that is set stays set, as every write has it.
pub fn with_flag(number: u32, row: usize, flag: bool) -> u32
    requires { (row < 32) × (get_or (bits 32 number) row false ≡ true → flag ≡ true) }
    ensures { bits 32 result ≡ set (bits 32 number) row flag }
{
    if flag {
        return number | (1 << row);
    }
    number
}
