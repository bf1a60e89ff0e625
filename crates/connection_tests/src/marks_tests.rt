//! Marks with ample memory.

ghost use Rattle.std.specs.Prelude.{◌≡◌, [], ◌∷◌, IfOk};
ghost use Rattle.window_credit.specs.Sides.{opened, putting, waiting, passing};

use std::alloc::{AllocError, Global};
use std::test::*;
use window_credit::{Marks, TakenOctets};

/// Four octets of stream 1 wait for ten that were put out on its connection, 7.
fn one_waits(alloc: Global) -> Result<Marks, AllocError>
    ensures { IfOk result (λ marks. marks ≡ waiting 4 (putting 10 (opened 1 7 0 0)) ∷ []) }
{
    let mut marks = Marks::new(alloc);
    marks.open(1, 7, 0, 0)?;
    marks.put(1, 10);
    marks.wait(1, 4)?;
    Ok(marks)
}

/// The same, where the connection is given to another stream.
fn one_is_passed(alloc: Global) -> Result<Marks, AllocError>
    ensures { IfOk result (λ marks. marks ≡ passing (waiting 4 (putting 10 (opened 1 7 0 0))) ∷ []) }
{
    let mut marks = one_waits(alloc)?;
    marks.pass(1);
    Ok(marks)
}

/// Octets wait of stream 1 on connection 7 and of stream 5 on connection 8.
fn two_wait(alloc: Global) -> Result<Marks, AllocError>
    ensures { IfOk result (λ marks. marks ≡ waiting 3 (putting 10 (opened 1 7 0 0)) ∷ waiting 4 (putting 20 (opened 5 8 0 0)) ∷ []) }
{
    let mut marks = Marks::new(alloc);
    marks.open(1, 7, 0, 0)?;
    marks.open(5, 8, 0, 0)?;
    marks.put(1, 10);
    marks.put(5, 20);
    marks.wait(1, 3)?;
    marks.wait(5, 4)?;
    Ok(marks)
}

/// What goes back of a stream's own and of older ones.
fn own_and_older(taken: TakenOctets) -> (u64, u64) {
    (taken.own, taken.older)
}

#[test]
fn octets_wait_until_all_is_taken(rt: HostRuntime) -> Result<(), Fail> {
    let mut marks = one_waits(rt.alloc())?;
    let before = (marks.has_untaken(1), marks.total(1));
    let taken = [marks.take(1, 7, 9).own, marks.take(1, 7, 10).own];
    let behind = (marks.has_untaken(1), marks.total(1));
    assert_eq!(rt; taken, [0, 4]);
    assert_eq!(rt; [before, behind], [(true, 4), (false, 0)]);
    Ok(())
}

#[test]
fn each_stream_has_its_own(rt: HostRuntime) -> Result<(), Fail> {
    let mut marks = two_wait(rt.alloc())?;
    let before = [marks.number(1), marks.number(5)];
    let taken = own_and_older(marks.take(5, 8, 20));
    let closed = marks.close(1);
    let behind = [marks.number(1), marks.number(5)];
    assert_eq!(rt; [before, behind], [[Some(7), Some(8)], [None, Some(8)]]);
    assert_eq!(rt; (taken, closed, marks.close(5)), ((4, 0), 3, 0));
    Ok(())
}

#[test]
fn a_stream_without_a_connection_costs_nothing(rt: HostRuntime) -> Result<(), Fail> {
    let mut marks = Marks::new(rt.alloc());
    marks.put(3, 10);
    marks.wait(3, 4)?;
    marks.pass(3);
    let untaken = marks.has_untaken(3);
    let own = marks.take(3, 7, 10).own;
    let waits = [marks.total(3), marks.behind(), marks.close(3)];
    assert_eq!(rt; (untaken, own, waits), (false, 0, [0; 3]));
    Ok(())
}

#[test]
fn a_connection_is_given_to_one_stream_after_another(rt: HostRuntime) -> Result<(), Fail> {
    let mut marks = one_is_passed(rt.alloc())?;
    let before = marks.behind();
    marks.open(3, 7, 12, 2)?;
    marks.wait(3, 5)?;
    let early = own_and_older(marks.take(3, 7, 9));
    let first = own_and_older(marks.take(3, 7, 10));
    assert_eq!(rt; [before, marks.behind()], [4, 0]);
    let second = own_and_older(marks.take(3, 7, 12));
    assert_eq!(rt; [early, first, second], [(0, 0), (0, 4), (5, 0)]);
    Ok(())
}

/// Octets wait of stream 1, whose connection stream 5 has since, and of stream 3 on another one.
fn three_wait(alloc: Global) -> Result<Marks, AllocError>
    ensures { IfOk result (λ marks. marks ≡ passing (waiting 4 (opened 1 7 10 0)) ∷ waiting 2 (opened 3 8 6 0) ∷ waiting 3 (opened 5 7 12 0) ∷ []) }
{
    let mut marks = Marks::new(alloc);
    marks.open(1, 7, 10, 0)?;
    marks.wait(1, 4)?;
    marks.pass(1);
    marks.open(3, 8, 6, 0)?;
    marks.wait(3, 2)?;
    marks.open(5, 7, 12, 0)?;
    marks.wait(5, 3)?;
    Ok(marks)
}

#[test]
fn octets_of_both_go_back_at_once(rt: HostRuntime) -> Result<(), Fail> {
    let mut marks = three_wait(rt.alloc())?;
    let taken = own_and_older(marks.take(5, 7, 12));
    assert_eq!(rt; (taken, marks.total(3)), ((3, 4), 2));
    Ok(())
}

#[test]
fn octets_wait_on_where_the_newest_stream_is_over(rt: HostRuntime) -> Result<(), Fail> {
    let mut marks = one_is_passed(rt.alloc())?;
    marks.open(3, 7, 12, 0)?;
    let closed = marks.close(3);
    let taken = own_and_older(marks.take(3, 7, 10));
    assert_eq!(rt; (closed, taken, marks.close(1)), (0, (0, 4), 0));
    Ok(())
}

#[test]
fn what_waits_of_an_earlier_stream_goes_with_it(rt: HostRuntime) -> Result<(), Fail> {
    let mut marks = one_is_passed(rt.alloc())?;
    let untaken = marks.has_untaken(1);
    marks.open(3, 7, 12, 0)?;
    let waits = [marks.close(1), marks.behind()];
    let older = marks.take(3, 7, 12).older;
    assert_eq!(rt; (untaken, waits, older), (false, [4, 0], 0));
    Ok(())
}
