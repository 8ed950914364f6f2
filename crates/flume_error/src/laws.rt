//! Laws of the errors. These functions do nothing: each contract is a law.
ghost use Rattle.std.specs.Prelude.{◌≡◌, ◌↔◌, IsTrue};
ghost use Rattle.std.specs.Cmp.{IsEquivalence};
ghost use Rattle.flume_error.specs.declared.error.NoMemory.{NoMemory};
ghost use Rattle.flume_error.specs.declared.error.SelectError.{SelectError};
ghost use Rattle.flume_error.specs.declared.error.capacity.CapacityError.{CapacityError};
ghost use Rattle.flume_error.specs.declared.error.send.SendError.{SendError};
ghost use Rattle.flume_error.specs.declared.error.send.TrySendError.{TrySendError};
ghost use Rattle.flume_error.specs.declared.error.send.SendTimeoutError.{SendTimeoutError};
ghost use Rattle.flume_error.specs.declared.error.receive.RecvError.{RecvError};
ghost use Rattle.flume_error.specs.declared.error.receive.TryRecvError.{TryRecvError};
ghost use Rattle.flume_error.specs.declared.error.receive.RecvTimeoutError.{RecvTimeoutError};
ghost use Rattle.flume_error.specs.Messages.{send_message, try_send_message, send_timeout_message};
ghost use Rattle.flume_error.specs.Equality.{equal_send_errors, equal_try_send_errors};
ghost use Rattle.flume_error.specs.Equality.{equal_send_timeout_errors};

use crate::error::{
    CapacityError, NoMemory, RecvError, RecvTimeoutError, SelectError, SendError, SendTimeoutError,
    TryRecvError, TrySendError,
};

/// `into_inner` gives the same message before and after an error is converted.
pub fn conversions_keep_the_message<T>()
    ensures try_send { (e : SendError T) (r : TrySendError T)
        → ⟦<TrySendError<T> as From<SendError<T>>>⟧.from_gives e r
        → try_send_message r ≡ send_message e }
    ensures send_timeout { (e : SendError T) (r : SendTimeoutError T)
        → ⟦<SendTimeoutError<T> as From<SendError<T>>>⟧.from_gives e r
        → send_timeout_message r ≡ send_message e }
{}

/// Two send errors are equal exactly if their cases are the same and their messages are equal.
pub fn send_errors_are_equal_by_case_and_message<T: PartialEq>()
    ensures send { (a b : SendError T)
        → ⟦<SendError<T> as PartialEq>⟧.eq a b ≡ equal_send_errors T.eq a b }
    ensures try_send { (a b : TrySendError T)
        → ⟦<TrySendError<T> as PartialEq>⟧.eq a b ≡ equal_try_send_errors T.eq a b }
    ensures send_timeout { (a b : SendTimeoutError T)
        → ⟦<SendTimeoutError<T> as PartialEq>⟧.eq a b ≡ equal_send_timeout_errors T.eq a b }
{}

/// Two other errors are equal exactly if their cases are the same.
pub fn other_errors_are_equal_by_case()
    ensures receive { (a b : RecvError)
        → IsTrue (⟦<RecvError as PartialEq>⟧.eq a b) ↔ (a ≡ b) }
    ensures try_receive { (a b : TryRecvError)
        → IsTrue (⟦<TryRecvError as PartialEq>⟧.eq a b) ↔ (a ≡ b) }
    ensures receive_timeout { (a b : RecvTimeoutError)
        → IsTrue (⟦<RecvTimeoutError as PartialEq>⟧.eq a b) ↔ (a ≡ b) }
    ensures select { (a b : SelectError)
        → IsTrue (⟦<SelectError as PartialEq>⟧.eq a b) ↔ (a ≡ b) }
    ensures capacity { (a b : CapacityError)
        → IsTrue (⟦<CapacityError as PartialEq>⟧.eq a b) ↔ (a ≡ b) }
    ensures no_memory { (a b : NoMemory)
        → IsTrue (⟦<NoMemory as PartialEq>⟧.eq a b) ↔ (a ≡ b) }
{}

/// Equality of send errors is an equivalence if that of their messages is one.
pub fn equality_of_send_errors_is_an_equivalence<T: PartialEq>()
    ensures send { IsEquivalence T.eq → IsEquivalence ⟦<SendError<T> as PartialEq>⟧.eq }
    ensures try_send { IsEquivalence T.eq
        → IsEquivalence ⟦<TrySendError<T> as PartialEq>⟧.eq }
    ensures send_timeout { IsEquivalence T.eq
        → IsEquivalence ⟦<SendTimeoutError<T> as PartialEq>⟧.eq }
{}

/// Equality of the other errors is an equivalence.
pub fn equality_of_other_errors_is_an_equivalence()
    ensures receive { IsEquivalence ⟦<RecvError as PartialEq>⟧.eq }
    ensures try_receive { IsEquivalence ⟦<TryRecvError as PartialEq>⟧.eq }
    ensures receive_timeout { IsEquivalence ⟦<RecvTimeoutError as PartialEq>⟧.eq }
    ensures select { IsEquivalence ⟦<SelectError as PartialEq>⟧.eq }
    ensures capacity { IsEquivalence ⟦<CapacityError as PartialEq>⟧.eq }
    ensures no_memory { IsEquivalence ⟦<NoMemory as PartialEq>⟧.eq }
{}
