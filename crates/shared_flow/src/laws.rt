//! What holds of a shared flow for every order of calls by any of its owners, emitters and subscriptions on threads.
ghost use Rattle.shared_flow.specs.Laws.{EachLockLaw, OneListLaw, OneFlowLaw, EachSubscriptionLaw, TakingAllIsTakingEach};
ghost use Rattle.shared_flow.specs.Losses.{OnlyAcceptancesLose};

use flow_terms::Word;

/// A law, with nothing to run. The rule that the owners of a flow's lock share, of its word and its place, keeps one history of
/// rounds of what lies in the place; so there is one list of rounds, as [`one_list_of_rounds`] says.
pub fn each_lock_has_one_list()
    ensures { EachLockLaw }
{}

/// A law, with nothing to run. Between any two calls there is one list of rounds. Each owner's rounds are its part of that list,
/// in its own order, and the flow is what exactly that list left of a new one.
pub fn one_list_of_rounds()
    ensures { OneListLaw }
{}

/// A law, with nothing to run. What a list of rounds left of a new flow is that flow; the emissions that it accepted are those of
/// the list, in the order in which they came, and each emitter's in its own.
pub fn each_emitter_in_its_own_order()
    ensures { OneFlowLaw }
{}

/// A law, with nothing to run. What a subscription received, then what is pending for it, is its prelude, the replay cache at its
/// start and the emissions accepted later in that one list of rounds, in order and once, less just those that its policy dropped.
pub fn each_subscription_receives_prelude_cache_then_later<T: Word>()
    ensures { EachSubscriptionLaw T.read_as }
{}

/// A law, with nothing to run. What a subscription takes at once, it takes by so many turns: it is given the values of its prelude one
/// after another; or it looks once without a word, by which its reader's position is found, and then once for each word.
pub fn taking_all_is_taking_each<T: Word>()
    ensures { TakingAllIsTakingEach T.read_as }
{}

/// A law, with nothing to run. Values are lost by the rounds that accept emissions under `DropOldest`, and by no other: not by a
/// poll, a withdrawal, a count, a reset, an end, nor by a look at the cursors after any of them. For each emission that is accepted
/// a place loses one value at most, the oldest that is pending there, and only where as many are pending as the flow has room for.
pub fn values_are_lost_by_acceptances_alone()
    ensures { OnlyAcceptancesLose }
{}
