//! What a sharing is told to do: Kotlin's `SharingCommand`.

/// What a strategy tells a sharing to do with its upstream: Kotlin's `SharingCommand`.
#[derive(Clone, Copy, Debug, PartialEq, Eq)]
pub enum Command {
    /// Begin a new run of the upstream: `SharingCommand.START`.
    Start,
    /// Cancel the run: `SharingCommand.STOP`.
    Stop,
    /// Cancel the run, where one stands, and reset the replay cache: `SharingCommand.STOP_AND_RESET_REPLAY_CACHE`.
    StopAndReset,
}
