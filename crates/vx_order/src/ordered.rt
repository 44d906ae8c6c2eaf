//! The order of writes as a trait.
ghost use Rattle.std.specs.Prelude.{◌≡◌, ◌↔◌, ℕ, ◌<◌, List, IsTrue, IfOk, IfErr, OnOk, OnErr};
ghost use Rattle.vx_path.specs.Path.{eof_path, next, path_lt};
ghost use Rattle.vx_sequence.specs.Universe.{Active, IsActive, IsOpen, IsLeast, IsUniverse, advanced, descended, released};
ghost use Rattle.vx_fault.specs.Counts.{IsCalm};

use crate::attempt::Attempt;
use vx_fault::Fallible;
use vx_order_answer::OrderError;
use vx_sequence::{SequenceId, SequencePointer};

/// A universe of paths, and a sink to which segments are appended in the order of their paths.
pub trait Order {
    ghost use Rattle.vx_order.specs.Outlet.{Outlet};
    ghost use Rattle.vx_order.specs.Answers.{FullAt, HasRoom, IsFull, Answers, After, Tells, IsWaiting, IsTooLarge, IsWritten, active_after};

    /// What tells of the sink's faults. Where others use the sink too, the count of faults is 0 until it failed this order, and
    /// then the greatest u64.
    type Sink: Fallible;

    /// The active paths.
    ghost active: { Self → Active };

    /// The sink, which only a try to write asks.
    ghost sink: { Self → Self.Sink };

    /// What the order tells of its sink, its own or one that it shares.
    ghost outlet: { Self → Outlet };

    /// Which bytes may be written at which path.
    ghost may_write: { Self → List ℕ → List ℕ → Type 0 };

    /// Of an order over a borrowed sink the name of the borrow, which no call exchanges for another.
    ghost borrow: { Self → ℕ };

    /// `SequencePointer::advance` in the universe. `TooLarge(2^64)` comes where the last index is the greatest one.
    fn advance(&mut self, p: &mut SequencePointer) -> Result<SequenceId, OrderError>
        requires { IsOpen (active self.old) (eof_path p.old) }
        ensures id { IfOk result (λ id. id ≡ eof_path p.old) }
        ensures pointer { OnOk result (p.new ≡ next p.old) }
        ensures active { OnOk result (active self.new ≡ advanced (active self.old) p.old) }

        ensures room { OnOk result (p.old.last < u64.MAX) }
        ensures full { IfErr result (FullAt p.old.last) }
        ensures unchanged { OnErr result ((p.new ≡ p.old) × (active self.new ≡ active self.old)) }

        ensures outlet { outlet self.new ≡ outlet self.old }
        ensures sink { sink self.new ≡ sink self.old }
        ensures may_write { (p b : List ℕ) → may_write self.old p b → may_write self.new p b }
        ensures rules { IsUniverse (active self.old) }
        ensures borrow { borrow self.new ≡ borrow self.old };

    /// `SequenceId::descend` in the universe.
    fn descend(&mut self, id: SequenceId) -> Result<SequencePointer, (SequenceId, OrderError)>
        requires { IsActive (active self.old) id }
        ensures pointer { IfOk result (λ p. (p.stem ≡ id) × (p.last ≡ 0)) }
        ensures active { OnOk result (active self.new ≡ descended (active self.old) id) }
        ensures refused { IfErr result (λ r. (r.0 ≡ id) × (r.1 ≡ OrderError.OutOfMemory)) }
        ensures unchanged { OnErr result (active self.new ≡ active self.old) }

        ensures outlet { outlet self.new ≡ outlet self.old }
        ensures sink { sink self.new ≡ sink self.old }
        ensures may_write { (p b : List ℕ) → may_write self.old p b → may_write self.new p b }
        ensures rules { IsUniverse (active self.old) }
        ensures borrow { borrow self.new ≡ borrow self.old };

    /// `SequenceId::release` in the universe.
    fn release(&mut self, id: SequenceId)
        requires { IsActive (active self.old) id }
        ensures active { active self.new ≡ released (active self.old) id }
        ensures outlet { outlet self.new ≡ outlet self.old }
        ensures sink { sink self.new ≡ sink self.old }
        ensures may_write { (p b : List ℕ) → may_write self.old p b → may_write self.new p b }
        ensures rules { IsUniverse (active self.old) }
        ensures borrow { borrow self.new ≡ borrow self.old };

    /// Whether no other active path is smaller. This stays so until the id is given up.
    fn is_least(&self, id: &SequenceId) -> bool
        requires { IsActive (active self.now) id.now }
        ensures least { IsTrue result ↔ IsLeast (active self.now) id.now }
        ensures rules { IsUniverse (active self.now) };

    /// Appends the bytes and gives the id up, unless another active path is smaller. A refused id is handed back.
    fn try_write(
        &mut self,
        id: SequenceId,
        bytes: &[u8],
    ) -> Result<Attempt, (SequenceId, OrderError)>
        requires is_active { IsActive (active self.old) id }
        requires allowed { may_write self.old id bytes.now }
        ensures answer { Answers (active self.old) (outlet self.old) id result }
        ensures waits { (q : List ℕ) → IsActive (active self.old) q → IsTrue (path_lt q id) → IsWaiting result }
        ensures large { IsLeast (active self.old) id → IsFull (outlet self.old) → IsTooLarge result }
        ensures complete { IsLeast (active self.old) id → HasRoom (outlet self.old)
            → IsCalm (Self.Sink.faults (sink self.old)) (Self.Sink.faults (sink self.new)) → IsWritten result }

        ensures active { active self.new ≡ active_after (active self.old) id result }
        ensures outlet { After (outlet self.old) bytes.now result (outlet self.new) }
        ensures told { Tells (Self.Sink.faults (sink self.old)) (Self.Sink.faults (sink self.new)) (Self.Sink.may_fail (sink self.old)) (Self.Sink.may_fail (sink self.new))
            (Self.Sink.must_fail (sink self.old)) (Self.Sink.must_fail (sink self.new)) result }
        ensures may_write { (p b : List ℕ) → may_write self.old p b → may_write self.new p b }
        ensures rules { IsUniverse (active self.old) }
        ensures borrow { borrow self.new ≡ borrow self.old };
}
