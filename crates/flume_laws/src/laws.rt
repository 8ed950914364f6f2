//! Laws of what parties did. These functions do nothing: each contract is a law.
ghost use Rattle.std.specs.Prelude.{◌≡◌, ℕ, Bool, true, not, List, [], ◌∷◌, ◌++◌, length};
ghost use Rattle.std.specs.Prelude.{Option, Some, Err};
ghost use Rattle.std.specs.List.{All, Contains, filter, list_all};
ghost use Rattle.flume_party.specs.Interleavings.{Interleaving};
ghost use Rattle.flume_error.specs.Messages.{send_timeout_message};
ghost use Rattle.flume_core.specs.declared.error.SendTimeoutError.{SendTimeoutError};
ghost use Rattle.flume_actions.specs.Actions.{Action, IsPart, IsWhole};
ghost use Rattle.flume_actions.specs.Calls.{AreCalls};
ghost use Rattle.flume_actions.specs.SendCalls.{IsSend, IsPolledSend};
ghost use Rattle.flume_laws.specs.Together.{Interleaved, EachAreCalls, AreExchanged};
ghost use Rattle.flume_laws.specs.Together.{IsExchangedSoFar, AreRouted, AreExchangedInPhases};
ghost use Rattle.flume_laws.specs.Together.{sum_over_all};
ghost use Rattle.flume_laws.specs.Offered.{IsSublist, offered_in, kept_in};

use std::alloc::Allocator;

/// If the parties' actions are all there were, each party made whole calls, and the channel was
/// emptied, then what they sent is what they got: there is one line of messages, in which each
/// party's sent messages stand in their order, and each party's received ones in theirs.
pub fn what_was_sent_is_what_was_got<T, A: Allocator>()
    ensures law { (capacity : Option ℕ) (parties : List (List (Action T A))) (all : List (Action T A))
        (sents gots : List (List T)) → Interleaved parties all → EachAreCalls parties sents gots
        → IsWhole capacity all (Some 0) → AreExchanged sents gots }
{}

/// If the parties' actions are all there were, each party made whole calls, and so many messages
/// are left, then what they sent is what they got, and behind it what is left. These are at most as
/// many as the capacity, or as there are parties, whichever is greater.
pub fn what_is_left_was_sent_last<T, A: Allocator>()
    ensures law { (capacity : Option ℕ) (n : ℕ) (parties : List (List (Action T A)))
        (all : List (Action T A)) (sents gots : List (List T)) → Interleaved parties all
        → EachAreCalls parties sents gots → IsWhole capacity all (Some n)
        → IsExchangedSoFar capacity (length parties) sents gots n }
{}

/// If what some parties sent is what some parties got, in one line, then what one receiver got of
/// one sender stands in the lists of both, in the order of both; and together these are all that
/// was sent, and all that was got.
pub fn each_pair_keeps_its_order<T>()
    ensures law { (sents gots : List (List T)) → AreExchanged sents gots → AreRouted sents gots }
{}

/// If what some parties sent is what some parties got, in one line, then each sum is kept: whatever
/// number each message counts for, the sum over all that was sent is the sum over all that was got.
pub fn every_sum_is_kept<T>()
    ensures law { (weight : T → ℕ) (sents gots : List (List T)) → AreExchanged sents gots
        → sum_over_all weight sents ≡ sum_over_all weight gots }
{}

/// Several clients ask one server: what some parties sent is what one party got. If all requests of
/// one client pass a test, and none of the others does, then those that pass, in the order in which
/// the server got them, are what this client asked, in its order. So if the server sends it a reply
/// to each of those, it gets the replies to its own requests, in order.
pub fn requests_are_told_apart<T>()
    ensures law { (test : T → Bool) (before after : List (List T)) (own got : List T)
        → AreExchanged (before ++ own ∷ after) (got ∷ []) → list_all test own ≡ true
        → list_all (list_all (λ x. not (test x))) (before ++ after) ≡ true
        → filter test got ≡ own }
{}

/// Suppose that some parties made their actions before others began with theirs, that each party
/// made whole calls, that these are all actions that there were but for those of further parties,
/// and that the channel was emptied. Then all that the first parties sent comes, in the one line of
/// messages, before all that the second ones sent.
pub fn what_was_sent_before_comes_before<T, A: Allocator>()
    ensures law { (capacity : Option ℕ)
        (parties parties' parties'' : List (List (Action T A)))
        (early late others all : List (Action T A))
        (sents sents' sents'' gots gots' gots'' : List (List T))
        → Interleaved parties early → EachAreCalls parties sents gots
        → Interleaved parties' late → EachAreCalls parties' sents' gots'
        → Interleaved parties'' others → EachAreCalls parties'' sents'' gots''
        → Interleaving (early ++ late) others all → IsWhole capacity all (Some 0)
        → AreExchangedInPhases sents sents' sents'' (gots'' ++ (gots' ++ gots)) }
{}

/// If the actions of a call that sends are among those that parties did, then the message that
/// comes back with its error is the one that it offered, also after a wait.
pub fn what_comes_back_is_what_was_offered<T, A: Allocator>()
    ensures send { (capacity : Option ℕ) (left : Option ℕ) (all made : List (Action T A))
        (message : T) (error : SendTimeoutError T) → IsWhole capacity all left
        → All (Contains all) made → IsSend message made (Err error)
        → send_timeout_message error ≡ message }
    ensures polled_send { (capacity : Option ℕ) (left : Option ℕ) (all made : List (Action T A))
        (message : T) (error : SendTimeoutError T) → IsWhole capacity all left
        → All (Contains all) made → IsPolledSend message made (Err error)
        → send_timeout_message error ≡ message }
{}

/// If a party made whole calls, and its actions are part of what was done to a channel, whatever
/// others did there, then what it got was offered there: each message once, and in the order in
/// which they were offered. None of them went back to its sender.
pub fn what_was_got_was_offered<T, A: Allocator>()
    ensures offered { (capacity : Option ℕ) (actions : List (Action T A)) (sent got : List T)
        → AreCalls actions sent got → (part : IsPart capacity actions)
        → IsSublist got (offered_in part.history) }
    ensures kept { (capacity : Option ℕ) (actions : List (Action T A)) (sent got : List T)
        → AreCalls actions sent got → (part : IsPart capacity actions)
        → IsSublist got (kept_in part.history) }
{}
