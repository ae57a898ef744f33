//! The sessions of a run in the order of their numbers. Each number from 1 on has one: there is one right
//! to each, and that to a number which wasn't given is here.

ghost use Rattle.std.specs.Prelude.{◌≡◌, ◌+◌, All, length};
ghost use Rattle.std.specs.List.Sorted.{IsNonDecreasingBy, IsPermutation};
ghost use Rattle.rx_daemon.specs.Rights.{AreLeft, IsRight};
ghost use Rattle.rx_daemon.specs.Threads.{AreNumbered, Rises, number_of};

use crate::rights::clash;
use crate::runs::Run;
use crate::served::ServedDesk;
use std::sync::ledger::Blank;

/// Two sessions one behind the other don't have one number.
fn tell_apart<D: Drop, K: Run>(served: Vec<ServedDesk<D>>) -> Vec<ServedDesk<D>>
    requires rights { All (λ s. IsRight K.rights (number_of s) s.right) served.items }
    requires up { IsNonDecreasingBy (λ s. number_of s) served.items }
    ensures same { result.items ≡ served.items }
    ensures rises { Rises (length served.items) served.items }
{
    let mut served = served;
    for i in 1..served.len() {
        if served[i - 1].transcript.number >= served[i].transcript.number {
            let second = served.remove(i);
            let first = served.remove(i - 1);
            clash::<K>(
                second.transcript.number,
                first.into_right(),
                second.into_right(),
            );
            break;
        }
    }
    served
}

/// The last session doesn't have a number that wasn't given.
fn bound<D: Drop, K: Run>(served: Vec<ServedDesk<D>>, left: Vec<Blank>) -> Vec<ServedDesk<D>>
    requires rights { All (λ s. IsRight K.rights (number_of s) s.right) served.items }
    requires rises { Rises (length served.items) served.items }
    requires left { AreLeft K.rights left.items }
    requires numbers { length served.items + length left.items ≡ length K.rights }
    ensures same { result.items ≡ served.items }
    ensures numbered { AreNumbered served.items }
{
    let mut served = served;
    let mut left = left;
    let count = served.len();
    let Some(last) = served.pop() else {
        return served;
    };
    let number = last.transcript.number as usize;
    if number > count {
        let twin = left.swap_remove(left.len() - (number - count));
        clash::<K>(last.transcript.number, last.into_right(), twin);
        return served;
    }
    served.push_reserved(last);
    served
}

/// Puts the sessions in the order of their numbers.
pub(crate) fn settle<D: Drop, K: Run>(
    served: Vec<ServedDesk<D>>,
    left: Vec<Blank>,
) -> Vec<ServedDesk<D>>
    requires rights { All (λ s. IsRight K.rights (number_of s) s.right) served.items }
    requires left { AreLeft K.rights left.items }
    requires numbers { length served.items + length left.items ≡ length K.rights }
    ensures same { IsPermutation served.items result.items }
    ensures numbered { AreNumbered result.items }
{
    let mut served = served;
    served.sort_unstable_by_key(|s| s.transcript.number);
    bound::<D, K>(tell_apart::<D, K>(served), left)
}
