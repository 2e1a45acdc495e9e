// A window's answer written to the destination: no value writes nothing, a number writes its pattern, NaN because nothing finite remained writes the one NaN
// that document 01 names. A write tests 12, then 13; a refusal leaves the slab and ends the filling. A write that is old is passed over: slab and filling stay as they are.
#![tactic(auto)]

ghost use Rattle.std.specs.Prelude.{◌≡◌, ◌+◌, ◌≤◌};
ghost use Rattle.model.specs.Consolidate.{write_bits, write_answer};
ghost use Rattle.ring_theory.specs.Sound.{Sound};
ghost use Rattle.window.specs.Parts.{Fine};
ghost use Rattle.window_write.specs.Parts.{filled_of, Ready};

// A destination so far: its flag, how many writes, and how the last one ended.
#[derive(Clone, Copy)]
pub struct Filling {
    pub wrapped: bool,
    pub writes: u64,
    pub outcome: Result<(), model::Refusal>,
}

// One value of a window, by its pattern.
fn write_bits(
    slab: &mut [u8],
    z: ring::Sizes,
    filling: Filling,
    window: u64,
    column: usize,
    bits: u64,
) -> Filling
    requires { Ready slab.old z filling column }
    ensures result_after { filled_of slab.new result ≡ write_bits (filled_of slab.old filling) window column bits }
    ensures sound { Sound slab.new z.slots z.series z.interval × (result.writes ≤ filling.writes + 1) }
{
    let infinite = field::is_infinite(bits);
    let good = field::is_good_stamp(window);
    let old = ring::is_old(slab, z, window);
    if infinite {
        return Filling {
            wrapped: filling.wrapped,
            writes: filling.writes,
            outcome: Err(model::Refusal::InvalidValue),
        };
    }
    if !good {
        return Filling {
            wrapped: filling.wrapped,
            writes: filling.writes,
            outcome: Err(model::Refusal::InvalidTimestamp),
        };
    }
    if old {
        return filling;
    }
    let flag = ring_write::write(slab, z, column, bits, window, filling.wrapped);
    Filling {
        wrapped: flag,
        writes: filling.writes + 1,
        outcome: Ok(()),
    }
}

// A window's answer for a column.
pub fn write_answer(
    slab: &mut [u8],
    z: ring::Sizes,
    x: model::WindowAnswer,
    filling: Filling,
    window: u64,
    column: usize,
) -> Filling
    requires { Ready slab.old z filling column × Fine x }
    ensures result_after { filled_of slab.new result ≡ write_answer x (filled_of slab.old filling) window column }
    ensures sound { Sound slab.new z.slots z.series z.interval × (result.writes ≤ filling.writes + 1) }
{
    match x {
        model::WindowAnswer::Empty => filling,
        model::WindowAnswer::Number(v) => {
            let bits = f64::to_bits(v);
            write_bits(slab, z, filling, window, column, bits)
        }
        model::WindowAnswer::NothingFinite => write_bits(
            slab,
            z,
            filling,
            window,
            column,
            format::FRESH,
        ),
    }
}
