//! Tries of two columns in turns.

ghost use Rattle.std.specs.Prelude.{◌≡◌, vec_len};
ghost use Rattle.vx_seats.specs.Turns.{NeverFails};
ghost use Rattle.vx_calls.specs.Written.{in_turns};

use std::alloc::{AllocError, Global};
use std::marker::Brand;
use std::panic::Expect;
use std::sync::ledger::{Blank, Ledger};
use vx_path::owned::Path;
use vx_seats::{Pairs, Receipt, Seat, SeatError, SinkState, WriteErrorName};
use vx_sink::{MemorySink, SegmentSink};

/// Who waits for whom, who writes, and who is stopped.
fn tries<S: SegmentSink, W: Ledger, F: Ledger, M: Ledger, N: Ledger, P: Pairs>(
    alloc: Global,
    state: &mut SinkState<S, W, F, M, N, P>,
    one: &mut Seat<W, F, M, N, P>,
    two: &mut Seat<W, F, M, N, P>,
) -> Result<String, AllocError>
    requires { P.pairs ≡ in_turns }
{
    let front = Path::from_slice(alloc, &[0, 1, 0])?;
    let ahead = state.try_write(two, &[0, 0, 1], &[2]);
    let first = state.try_write(one, &[0, 0, 0], &[1]);
    state.raise(one, Some(front));
    let second = state.try_write(two, &[0, 0, 1], &[2]);
    let again = state.try_write(one, &[0, 0, 0], &[1]);
    state.stop(one, WriteErrorName::ManyChunks);
    let stopped = state.try_write(two, &[0, 1, 1], &[3]);
    format!(in alloc; "{ahead:?} {first:?} {second:?} {again:?} {stopped:?}")
}

/// What was answered, the sink and the history.
fn tried<S: SegmentSink + Drop, W: Ledger, F: Ledger, M: Ledger, N: Ledger, P: Pairs>(
    alloc: Global,
    sink: S,
    fronts: Vec<Path>,
    blanks: (Blank, Blank, Blank, Blank),
) -> Result<(Result<String, AllocError>, S, Vec<Receipt>), SeatError>
    requires columns { (vec_len fronts ≡ 2) × (P.columns ≡ 2) }
    requires writes { (blanks.0.name ≡ W.name) × (blanks.0.parts ≡ W.parts) × (W.parts ≡ 2) }
    requires faults { (blanks.1.name ≡ F.name) × (blanks.1.parts ≡ F.parts) × (F.parts ≡ 2) }
    requires made { (blanks.2.name ≡ M.name) × (blanks.2.parts ≡ M.parts) × (M.parts ≡ 2) }
    requires seen { (blanks.3.name ≡ N.name) × (blanks.3.parts ≡ N.parts) × (N.parts ≡ 2) }
    requires sink { (S.next sink ≡ P.first) × (S.segments sink ≡ P.told) × (S.faults sink ≡ P.faults) × (S.borrow sink ≡ P.borrow) }
    requires never_fails { NeverFails P.may_fail → NeverFails (S.may_fail sink) }
    requires pairs { P.pairs ≡ in_turns }
{
    let made = SinkState::<S, W, F, M, N, P>::new(
        sink, fronts, blanks.0, blanks.1, blanks.2, blanks.3,
    );
    let (mut state, mut seats) = match made {
        Ok(made) => made,
        Err((_sink, error)) => return Err(error),
    };
    let Some(mut two) = seats.pop() else {
        unreachable!()
    };
    let Some(mut one) = seats.pop() else {
        unreachable!()
    };
    let told = tries(alloc, &mut state, &mut one, &mut two);
    if let Err(failed) = seats.push(one) {
        failed.value.spend();
    }
    if let Err(failed) = seats.push(two) {
        failed.value.spend();
    }
    let (sink, history) = state.close(seats);
    Ok((told, sink, history))
}

/// The same, whatever ledgers and pairs are picked.
fn taken_in_turns<S: SegmentSink + Drop>(
    alloc: Global,
    sink: S,
    fronts: Vec<Path>,
) -> Result<(Result<String, AllocError>, S, Vec<Receipt>), SeatError>
    requires { vec_len fronts ≡ 2 }
{
    let blanks = (Blank::new(2), Blank::new(2), Blank::new(2), Blank::new(2));
    tried::<S, Brand, Brand, Brand, Brand, Brand>(alloc, sink, fronts, blanks)
}

#[test]
fn columns_try_in_turns(rt: HostRuntime) {
    let sink = MemorySink::new(0, Vec::new(rt.alloc()));
    let one = Path::from_slice(rt.alloc(), &[0, 0, 0]).expect(&rt, "memory");
    let two = Path::from_slice(rt.alloc(), &[0, 0, 1]).expect(&rt, "memory");
    let fronts = vec![in rt.alloc(); one, two].expect(&rt, "memory");
    let (told, sink, history) = taken_in_turns(rt.alloc(), sink, fronts).expect(&rt, "memory");
    let told = told.expect(&rt, "memory");
    assert_eq!(rt;
        told.as_str(),
        "Ok(Waiting([0, 0, 0])) Ok(Written(Receipt { path: [0, 0, 0], number: 0 })) Ok(Written(Receipt { path: [0, 0, 1], number: 1 })) Ok(Waiting([0, 0, 1])) Err(Stopped(0, ManyChunks))"
    );
    assert_eq!(rt; history.len(), 2);
    assert_eq!(rt; sink.segments().len(), 2);
}
