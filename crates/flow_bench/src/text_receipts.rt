//! Receipts of a shared flow of texts for threads, on one thread: each text is made for its emission, and cloned for each reader.

use crate::fault::Fault;
use crate::measured::Measured;
use crate::receipts::{Received, Takes, receipts_of};
use crate::sides::{Admits, Emits, Ends};
use std::alloc::AllocGlobal;
use std::random::RandomSource;
use std::rt::Clock;
use std::sync::Wait;
use value_flows::{Config, Emitted, Policy, Subscription, ValueFlow};

/// Forty bytes.
const TEXT: &'static str = "An event has a text of some forty bytes.";

/// A flow, and what its texts are made of.
#[derive(Drop)]
struct Texts {
    flow: ValueFlow<String>,
    text: String,
    // Which emission was the last.
    number: u64,
}

impl Emits for Texts {
    #[inline]
    fn emit<R: Wait>(&mut self, rt: &R, value: u64) -> bool {
        self.number = value;
        let Ok(text) = self.text.clone() else {
            return false;
        };
        match self.flow.try_emit(rt, text) {
            Emitted::Accepted(_) => true,
            _ => false,
        }
    }
}

impl Takes<Subscription<String>> for Texts {
    #[inline]
    fn take<R: Wait>(
        &mut self,
        rt: &R,
        reader: &mut Subscription<String>,
        taken: Received,
    ) -> Option<Received> {
        match reader.try_next(rt) {
            Ok(value_flows::Received::Value(text)) => {
                if text.len() == TEXT.len() {
                    return Some(taken.with(self.number));
                }
                None
            }
            _ => None,
        }
    }
}

impl Admits<Subscription<String>> for Texts {
    fn admit<R>(&mut self, rt: &R) -> Option<Subscription<String>>
    where
        R: AllocGlobal + RandomSource + Wait,
    {
        self.flow.subscribe(rt).ok()
    }
}

impl Ends for Subscription<String> {
    fn end<R: Wait>(self, rt: &R) {
        drop(self.cancel(rt));
    }
}

/// The receipts of a new flow with 64 places, which drops the oldest texts.
pub(crate) fn receipts<R>(rt: &R, readers: u32, values: u64) -> Result<Measured, Fault>
where
    R: Clock + AllocGlobal + RandomSource + Wait,
{
    let config = Config {
        replay: 0,
        extra: 64,
        policy: Policy::DropOldest,
        subscribers: readers,
    };
    let mut texts = Texts {
        flow: ValueFlow::new(rt.alloc(), &config)?,
        text: String::from_str(rt.alloc(), TEXT)?,
        number: 0,
    };
    receipts_of(rt, &mut texts, readers, values)
}
