//! What each subscription receives.

ghost use Rattle.shared_core.specs.Headline.{OfEveryExecution, EachReceivesPreludeCacheThenLater, EachEmitterInItsOwnOrder};
ghost use Rattle.shared_core.specs.Headline.{NumbersCountWhatWasAccepted, EachLiveWasOpened, LiveUntilCancelled};
ghost use Rattle.shared_core.specs.Headline.{NothingAfterCancellation, NothingWithoutOpening};
ghost use Rattle.shared_core.specs.Headline.{AtMostItsPlacesPending, NoneWaitsBesideRoom, CachesTheLatest};

/// For every list of calls on a new flow, what a subscription received, then what is pending for it, is its prelude, the
/// replay cache at its start and all later accepted emissions, in order and once, each emitter's in its own order, less just
/// the values its policy dropped; after cancellation nothing is received.
///
/// Received are the values in the replies to `next`, those of the prelude first. What is left of the prelude is pending too,
/// and none of it is dropped. Accepted are the emissions in the order of the calls that began them,
/// without those that were refused, full or dropped, or were removed while they waited, and without those that still wait.
/// Of a cancelled subscription this holds as it was at the cancellation; its pending values are given up.
///
/// Of what was accepted a live subscription has no more pending than it has places, an emission waits only while some subscription has all of them
/// taken, and the replay cache has the latest values that were accepted since it was last reset.
///
/// Not claimed: that any call is made.
pub fn each_subscription_receives_prelude_cache_then_later<T: Copy>()
    ensures each_receives_prelude_cache_then_later { OfEveryExecution T EachReceivesPreludeCacheThenLater }
    ensures each_emitter_in_its_own_order { OfEveryExecution T EachEmitterInItsOwnOrder }
    ensures numbers_count_what_was_accepted { OfEveryExecution T NumbersCountWhatWasAccepted }
    ensures each_live_was_opened { OfEveryExecution T EachLiveWasOpened }
    ensures live_until_cancelled { OfEveryExecution T LiveUntilCancelled }
    ensures nothing_after_cancellation { OfEveryExecution T NothingAfterCancellation }
    ensures nothing_without_opening { OfEveryExecution T NothingWithoutOpening }
    ensures at_most_its_places_pending { OfEveryExecution T AtMostItsPlacesPending }
    ensures none_waits_beside_room { OfEveryExecution T NoneWaitsBesideRoom }
    ensures caches_the_latest { OfEveryExecution T CachesTheLatest }
{}
