// Little-endian fields of a lent slice, each an equation with the definition (`get`, `put`), the two tests of a value's 64-bit pattern by a shift and masks, and the test of a stamp.
// A 32-bit field is handed out and taken as u64, with its bound, so that callers compute with it without a cast: so the gets and puts of both widths stand beside one another.
// In a static library each get is then one load and each put one store: `mov (%rdx,%rax,1),%rax` for `get_u64`, `mov %ecx,(%rdx,%rax,1)` for `put_u32`;
// no copy and no test of the index is left.
#![tactic(auto)]

ghost use Rattle.std.specs.Prelude.{◌≡◌, ◌+◌, ◌<◌, ◌≤◌, length};
ghost use Rattle.model.specs.Bytes.{part, get, put};
ghost use Rattle.model.specs.Ring.{is_infinite, is_nan_bits};
ghost use Rattle.model.specs.Record.{stamp_ok};

// The N bytes at an offset.
fn bytes_at<const N: usize>(s: &[u8], at: usize) -> [u8; N]
    requires { at + N ≤ length s.now }
    ensures { result ≡ part s.now at N }
{
    let mut bytes = [0; N];
    bytes.copy_from_slice(&s[at..at + N]);
    bytes
}

// The u32 at an offset.
pub fn get_u32(s: &[u8], at: usize) -> u64
    requires { at + 4 ≤ length s.now }
    ensures { (result ≡ get 4 s.now at) × (result < 4294967296) }
{
    u64::from(u32::from_le_bytes(bytes_at(s, at)))
}

// The u64 at an offset.
pub fn get_u64(s: &[u8], at: usize) -> u64
    requires { at + 8 ≤ length s.now }
    ensures { result ≡ get 8 s.now at }
{
    u64::from_le_bytes(bytes_at(s, at))
}

// Stores the lower four bytes of x at an offset.
pub fn put_u32(s: &mut [u8], at: usize, x: u64)
    requires { at + 4 ≤ length s.old }
    ensures { s.new ≡ put 4 s.old at x }
{
    s[at..at + 4].copy_from_slice(&x.to_le_bytes()[..4]);
}

// Stores x at an offset.
pub fn put_u64(s: &mut [u8], at: usize, x: u64)
    requires { at + 8 ≤ length s.old }
    ensures { s.new ≡ put 8 s.old at x }
{
    s[at..at + 8].copy_from_slice(&x.to_le_bytes());
}

// The eleven exponent bits are all ones and the fraction is zero.
pub fn is_infinite(bits: u64) -> bool
    ensures { result ≡ is_infinite bits }
{
    ((bits >> 52) & 0x7ff) == 0x7ff && (bits & 0xf_ffff_ffff_ffff) == 0
}

// The eleven exponent bits are all ones and the fraction is not zero.
pub fn is_nan(bits: u64) -> bool
    ensures { result ≡ is_nan_bits bits }
{
    ((bits >> 52) & 0x7ff) == 0x7ff && (bits & 0xf_ffff_ffff_ffff) != 0
}

// A stamp that may be written: not 0, and below 2^63. Others are refused with 13.
pub fn is_good_stamp(stamp: u64) -> bool
    ensures { result ≡ stamp_ok stamp }
{
    0 < stamp && stamp < format::TOP
}
