//! Near-misses of the laws of parties: lists that no channel exchanges, and what a law needs. The
//! functions do nothing.
ghost use Rattle.std.specs.Prelude.{◌≡◌, ℕ, ◌+◌, [], ◌∷◌, ◌++◌, drop, take, reverse, Some};
ghost use Rattle.std.specs.Prelude.{None};
ghost use Rattle.flume_actions.specs.Actions.{IsPart, IsWhole};
ghost use Rattle.flume_actions.specs.Calls.{AreCalls};
ghost use Rattle.flume_laws.specs.Offered.{IsSublist, offered_in};
ghost use Rattle.flume_laws.specs.Together.{AreExchanged, AreRouted, IsExchangedSoFar};
ghost use Rattle.test_parties.specs.NearMisses.{one_sent, one_got, three_tried, LawWhen};
ghost use Rattle.test_parties.specs.NearMisses.{waited_for, LawWithin};
ghost use Rattle.test_parties.specs.NearMisses.{two_exchanged, SumLawWith, LateLaw};
ghost use Rattle.test_parties.specs.NearMisses.{ToldApartLawWith, none_passes};
ghost use Rattle.test_parties.specs.NearMisses.{comes_back, ComesBackLawWith};

/// Lists that are exchanged, and near-misses of them, which are not.
pub fn near_misses_are_not_exchanged()
    // Two senders, and one receiver.
    ensures exchanged { AreExchanged {X = ℕ} ((1 ∷ 2 ∷ []) ∷ (3 ∷ []) ∷ []) ((1 ∷ 3 ∷ 2 ∷ []) ∷ []) }
    ensures order_turned { ¬ AreExchanged {X = ℕ} ((1 ∷ 2 ∷ []) ∷ (3 ∷ []) ∷ [])
        ((2 ∷ 3 ∷ 1 ∷ []) ∷ []) }
    // One sender, and one receiver.
    ensures swapped { ¬ AreExchanged {X = ℕ} ((1 ∷ 2 ∷ []) ∷ []) ((2 ∷ 1 ∷ []) ∷ []) }
    ensures doubled { ¬ AreExchanged {X = ℕ} ((1 ∷ []) ∷ []) ((1 ∷ 1 ∷ []) ∷ []) }
    ensures lost { ¬ AreExchanged {X = ℕ} ((1 ∷ 2 ∷ []) ∷ []) ((1 ∷ []) ∷ []) }
{}

/// Lists that are routed, and near-misses of them, which are not.
pub fn near_misses_are_not_routed()
    ensures routed { AreRouted {X = ℕ} ((1 ∷ 2 ∷ []) ∷ []) ((1 ∷ 2 ∷ []) ∷ []) }
    ensures swapped { ¬ AreRouted {X = ℕ} ((1 ∷ 2 ∷ []) ∷ []) ((2 ∷ 1 ∷ []) ∷ []) }
    ensures doubled { ¬ AreRouted {X = ℕ} ((1 ∷ []) ∷ []) ((1 ∷ 1 ∷ []) ∷ []) }
    ensures lost { ¬ AreRouted {X = ℕ} ((1 ∷ 2 ∷ []) ∷ []) ((1 ∷ []) ∷ []) }
{}

/// What was sent is what was got only if the channel was emptied: in a run, one message was sent,
/// and nobody received it.
pub fn the_law_needs_an_empty_channel()
    ensures one_sent { IsWhole None one_sent (Some 1) }
    ensures needed { ¬ LawWhen (Some 1) }
{}

/// What is exchanged if a message is left, and a near-miss, in which the one that is left was sent
/// first.
pub fn what_is_left_is_not_in_front()
    ensures last { IsExchangedSoFar {X = ℕ} (Some 2) 2 ((1 ∷ 2 ∷ []) ∷ []) ((1 ∷ []) ∷ []) 1 }
    ensures first { ¬ IsExchangedSoFar {X = ℕ} (Some 2) 2 ((1 ∷ 2 ∷ []) ∷ []) ((2 ∷ []) ∷ []) 1 }
{}

/// More messages than the capacity may be left: in a run, a receiver waited, so that a message was
/// sent into a channel of capacity 0. Then the receiver withdrew.
pub fn the_bound_needs_the_number_of_parties()
    ensures one_left { IsWhole (Some 0) waited_for (Some 1) }
    ensures needed { ¬ LawWithin 0 }
{}

/// What a party can have got of what was offered, and near-misses: of 1, 2 and 3, only 1 and 3 were
/// taken.
pub fn near_misses_were_not_offered()
    ensures all { IsSublist (1 ∷ 3 ∷ []) (offered_in three_tried) }
    ensures some { IsSublist (3 ∷ []) (offered_in three_tried) }
    ensures doubled { ¬ IsSublist (1 ∷ 1 ∷ []) (offered_in three_tried) }
    ensures refused { ¬ IsSublist (2 ∷ []) (offered_in three_tried) }
    ensures swapped { ¬ IsSublist (3 ∷ 1 ∷ []) (offered_in three_tried) }
{}

/// A party got a message that another one sent: its calls are whole, and part of a run.
pub fn a_party_got_what_another_sent()
    ensures calls { AreCalls one_got [] (1 ∷ []) }
    ensures part { (part : IsPart None one_got) × (part.others ≡ one_sent) }
{}

/// A sum isn't kept if each party lost the first message that it got, or counted it twice: in a
/// run, two messages were sent and got, and the sums differ.
pub fn a_sum_needs_each_message_once()
    ensures emptied { IsWhole None two_exchanged (Some 0) }
    ensures lost { ¬ SumLawWith (drop 1) }
    ensures doubled { ¬ SumLawWith (λ got. take 1 got ++ got) }
{}

/// What was sent late doesn't come before what was sent early: in that run, the two messages were
/// sent one after the other, and got in this order.
pub fn phases_are_not_swapped()
    ensures swapped { ¬ LateLaw }
{}

/// What one client asked isn't what passes a test if the server got it in another order, lost a
/// request or got one twice; nor if requests of another client pass, too.
pub fn requests_are_not_told_apart_otherwise()
    ensures swapped { ¬ ToldApartLawWith reverse none_passes }
    ensures lost { ¬ ToldApartLawWith (drop 1) none_passes }
    ensures doubled { ¬ ToldApartLawWith (λ got. take 1 got ++ got) none_passes }
    ensures needed { ¬ ToldApartLawWith (λ got. got) (λ _ _. Unit {0}) }
{}

/// What comes back with an error is the message that was offered, and no other one: in a run, 1 was
/// blocked, and came back. Of actions that are no run, it may be another one.
pub fn no_other_message_comes_back()
    ensures blocked { IsWhole (Some 0) (comes_back 1) (Some 0) }
    ensures other { ¬ ComesBackLawWith (λ all. IsWhole (Some 0) all (Some 0)) (λ x. x + 1) }
    ensures needed { ¬ ComesBackLawWith (λ _. Unit {0}) (λ x. x) }
{}
