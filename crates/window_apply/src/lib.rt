// The six functions of a window's finite values as one fold, in f64: where it starts, how one value more enters, what is made of it and of the count (Rust's
// `ConsolidationFn::apply`). That a fold of finite values is never NaN is proved in specs/Fine.antt.
#![tactic(auto)]

ghost use Rattle.std.specs.Prelude.{◌≡◌};
ghost use Rattle.model.specs.Window.{fold_start, fold_step, fold_end};

// Sums start from negative zero.
pub fn fold_start(f: model::ConsolidationFn) -> f64
    ensures { result ≡ fold_start f }
{
    match f {
        model::ConsolidationFn::Average => -0.0,
        model::ConsolidationFn::Min => f64::from_bits(0x7ff0_0000_0000_0000),
        model::ConsolidationFn::Max => f64::from_bits(0xfff0_0000_0000_0000),
        model::ConsolidationFn::Last => -0.0,
        model::ConsolidationFn::Sum => -0.0,
        model::ConsolidationFn::Count => -0.0,
    }
}

// One value more. Min and Max keep the earlier value on equal zeros.
pub fn fold_step(f: model::ConsolidationFn, a: f64, x: f64) -> f64
    ensures { result ≡ fold_step f a x }
{
    match f {
        model::ConsolidationFn::Average => a + x,
        model::ConsolidationFn::Min => if x < a { x } else { a },
        model::ConsolidationFn::Max => if a < x { x } else { a },
        model::ConsolidationFn::Last => x,
        model::ConsolidationFn::Sum => a + x,
        model::ConsolidationFn::Count => a,
    }
}

// What is made of the fold and of the count of values.
pub fn fold_end(f: model::ConsolidationFn, a: f64, count: usize) -> f64
    ensures { result ≡ fold_end f a count }
{
    let k = std::num::nearest_u64_to_f64(count as u64);
    match f {
        model::ConsolidationFn::Average => a / k,
        model::ConsolidationFn::Min => a,
        model::ConsolidationFn::Max => a,
        model::ConsolidationFn::Last => a,
        model::ConsolidationFn::Sum => a,
        model::ConsolidationFn::Count => k,
    }
}
