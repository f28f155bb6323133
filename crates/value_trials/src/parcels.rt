//! A value whose makings and lettings go are counted, and whose clone may be refused.
ghost use Rattle.std.specs.Prelude.{◌==◌};
ghost use Rattle.std.proofs.Common.{rules};
ghost use Rattle.std.specs.Cmp.Rules.{comparing};

use std::alloc::{AllocError, AllocGlobal, Global};
use std::process::Abort;
use std::sync::Arc;
use std::sync::atomic::{AtomicU64, Ordering};

/// How many parcels were made, and let go; and whether a clone of one is refused.
#[derive(Drop)]
pub(crate) struct Tally {
    made: AtomicU64,
    gone: AtomicU64,
    /// 0 where none is refused.
    refuses: AtomicU64,
}

impl Tally {
    pub(crate) fn new(alloc: Global) -> Result<Arc<Tally>, AllocError> {
        let tally = Tally {
            made: AtomicU64::new(0),
            gone: AtomicU64::new(0),
            refuses: AtomicU64::new(0),
        };
        Ok(Arc::new(alloc, tally)?)
    }

    /// From now on clones are refused, or not.
    pub(crate) fn refuse(&self, refuses: bool) {
        self.refuses.store(u64::from(refuses), Ordering::SeqCst);
    }

    pub(crate) fn made(&self) -> u64 {
        self.made.load(Ordering::SeqCst)
    }

    /// How many were made, and aren't let go.
    pub(crate) fn left(&self) -> u64 {
        self.made().wrapping_sub(self.gone.load(Ordering::SeqCst))
    }
}

/// A new tally.
pub(crate) fn tally_of<R: AllocGlobal + Abort>(rt: &R) -> Arc<Tally> {
    Tally::new(rt.alloc()).expect(rt, "a tally")
}

/// Fails where a parcel is left.
pub(crate) fn assert_let_go(rt: &impl Abort, tally: &Arc<Tally>) {
    let left = tally.left();
    assert!(rt; left == 0, "{left} parcels are left");
}

/// A number, which takes no memory of its own.
pub(crate) struct Parcel {
    pub(crate) number: u64,
    tally: Arc<Tally>,
}

impl Drop for Parcel {
    fn drop(self) {
        let Parcel { number: _, tally } = self;
        tally.gone.fetch_add(1, Ordering::SeqCst);
        drop(tally);
    }
}

impl Clone for Parcel {
    fn clone(&self) -> Result<Parcel, AllocError> {
        if self.tally.refuses.load(Ordering::SeqCst) != 0 {
            return Err(AllocError);
        }
        Parcel::new(&self.tally, self.number)
    }
}

// By their numbers alone.
impl PartialEq for Parcel {
    ghost eq = { λ a b. a.number == b.number };

    ghost laws = { Prim.search (comparing, rules) };

    fn eq(&self, other: &Parcel) -> bool {
        self.number == other.number
    }
}

impl Parcel {
    pub(crate) fn new(tally: &Arc<Tally>, number: u64) -> Result<Parcel, AllocError> {
        let tally = Arc::try_clone(tally)?;
        tally.made.fetch_add(1, Ordering::SeqCst);
        Ok(Parcel { number, tally })
    }
}

/// A parcel of this tally. It is refused only where there are as many as a counter can tell apart.
pub(crate) fn parcel_of(rt: &impl Abort, tally: &Arc<Tally>, number: u64) -> Parcel {
    Parcel::new(tally, number).expect(rt, "a parcel")
}

/// What a call came to.
#[derive(Clone, Copy, PartialEq, Eq)]
pub(crate) enum Answer {
    Done,
    Yes,
    No,
    /// A number, or the parcel with this number.
    Number(u64),
    /// So many were missed.
    Missed(u64),
    /// The parcel with this number was handed back.
    Dropped(u64),
    Full(u64),
    /// Whoever would have emitted the parcel with this number was let go, and has it back.
    LetGo(u64),
    /// There is nothing.
    Nothing,
    Stopped,
    /// There is no memory.
    Refused,
    /// As many have subscribed as may.
    AllTaken,
}

pub(crate) fn said(is_so: bool) -> Answer {
    if is_so { Answer::Yes } else { Answer::No }
}
