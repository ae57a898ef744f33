//! A sum that a thread of its own makes, by `Begun` of `rx_base`.

ghost use Rattle.std.specs.Prelude.{◌≡◌, ◌+◌, ◌-◌, ◌^◌, min};

use rx_base::Begun;
use rx_rows::{Answer, Row, RowFault};
use std::sync::Wait;
use std::thread::{Promise, Threads, scope, scope_env};

/// Promises the sum of two numbers, or the largest of 64 bits where that is less.
#[derive(Clone, Copy, Drop)]
struct SumOf(u64, u64);

impl Promise<u64> for SumOf {
    ghost kept_by = { λ p sum. sum ≡ min (p.0 + p.1) (2 ^ 64 - 1) };
}

/// The sum, which a thread makes.
fn sum_in_thread<R: Threads + Wait>(rt: &R, one: u64, other: u64) -> u64
    ensures { result ≡ min (one + other) (2 ^ 64 - 1) }
{
    scope(scope_env(), rt, |scope| {
        Begun::new(scope, SumOf(one, other), || one.saturating_add(other)).join(rt)
    })
}

/// `thread ONE OTHER`: their sum.
pub(crate) fn answer_thread<R: Threads + Wait>(
    rt: &R,
    row: &mut Row<'_>,
    answer: &mut Answer,
) -> Result<(), RowFault> {
    let one = row.number()?;
    let other = row.number()?;
    answer.number(sum_in_thread(rt, one, other))?;
    Ok(())
}
