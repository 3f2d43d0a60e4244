//! Rows of desks: work is handed over, each at the desk of its place, and taken back.
ghost use Rattle.std.specs.Prelude.{◌≡◌, ◌≤◌, [], None, All, IfOk, map, replicate, length, vec_capacity};
ghost use Rattle.work_desk.specs.Desk.{giver, doer};
ghost use Rattle.work_desk.specs.Rows.{MayHand, handed, AllHanded, Returned, free_again, all_told};

use crate::rule::{Terms, Work};
use crate::sides::{Doer, Giver, make_desk};
use std::alloc::{AllocError, Global};
use std::sync::Wait;

/// A row of desks with nothing on them, on the terms of J: from the one side, and from the other.
pub fn make_desks<J: Terms<S>, S, T: Work<S>>(
    alloc: Global,
    count: usize,
) -> Result<(Vec<Giver<T, S>>, Vec<Doer<T, S>>), AllocError>
    ensures givers { IfOk result (λ r. r.0.items ≡ replicate count (giver J.terms None)) }
    ensures doers { IfOk result (λ r. r.1.items ≡ replicate count (doer J.terms None)) }
{
    let mut givers = Vec::with_capacity(alloc, count)?;
    let mut doers = Vec::with_capacity(alloc, count)?;
    for _ in 0..count {
        let (one, other) = make_desk::<J, S, T>(alloc)?;
        givers.push_reserved(one);
        doers.push_reserved(other);
    }
    Ok((givers, doers))
}

/// Hands all work over, each at the desk of its place.
pub fn hand_all<T: Work<S>, S>(givers: &mut Vec<Giver<T, S>>, works: &mut Vec<T>)
    requires { MayHand T.ready works.old.items givers.old.items }
    ensures handed { givers.new.items ≡ handed works.old.items givers.old.items }
    ensures none { works.new.items ≡ [] }
    ensures room { vec_capacity works.new ≡ vec_capacity works.old }
{
    while let Some(work) = works.pop() {
        let at = works.len();
        let giver = &mut givers[at];
        giver.hand(work);
    }
}

/// Waits at each desk, and takes all work back, in order.
pub fn take_all_back<T: Work<S>, S, R: Wait>(
    rt: &R,
    givers: &mut Vec<Giver<T, S>>,
    works: &mut Vec<T>,
)
    requires none { works.old.items ≡ [] }
    requires room { length givers.old.items ≤ vec_capacity works.old }
    requires handed { AllHanded givers.old.items }
    ensures back { Returned T.done givers.old.items works.new.items }
    ensures free { givers.new.items ≡ map (λ g. free_again g) givers.old.items }
    ensures room { vec_capacity works.new ≡ vec_capacity works.old }
{
    for p in 0..givers.len() {
        let giver = &mut givers[p];
        let work = giver.take_back(rt);
        works.push_reserved(work);
    }
}

/// Tells each other side that there is no more work.
pub fn end_all<T: Work<S>, S>(givers: &mut Vec<Giver<T, S>>)
    requires { All (λ g. g ≡ giver g.terms None) givers.old.items }
    ensures { givers.new.items ≡ all_told givers.old.items }
{
    for desk in 0..givers.len() {
        let giver = &mut givers[desk];
        giver.end();
    }
}
