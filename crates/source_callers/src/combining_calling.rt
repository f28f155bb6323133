//! A caller of a chain over a state and a subscription: Kotlin's `combine(price, orders) { price, order -> price * order }.toList(costs)`.

ghost use Rattle.std.specs.Prelude.{◌≡◌, None, OnOk};
ghost use Rattle.source_callers.specs.Costs.{TookCosts, cost};

use cold_flow::Apply;
use flow_terms::{Refusal, Word};
use hot_sources::{
    Parker, TaskBell, WakingSeat, combine, receiving, state_and_flow, take_list, take_of, watching,
};
use shared_core::{Config, Policy};
use shared_flow::{Emitter, Subscription};
use state_flow::Collector;
use std::alloc::AllocGlobal;
use std::random::RandomSource;
use std::sync::Wait;
use std::thread;
use std::thread::Threads;

/// Ten orders find room, so who emits them doesn't wait.
const ORDERS: Config = Config {
    replay: 0,
    extra: 10,
    policy: Policy::Suspend,
    subscribers: 1,
    emits: 1,
    first: 0,
};

/// What an order costs, modulo 2^64.
#[derive(Clone, Copy)]
pub struct Cost;

impl Apply<(u64, u64)> for Cost {
    type Out = u64;

    ghost gives = { λ _ both. cost both };

    fn apply(&self, both: (u64, u64)) -> u64 {
        both.0.wrapping_mul(both.1)
    }
}

/// Adds what each order costs, and each again at a new price, to `out`, until who sets the price lets it go. The thread sleeps until either
/// comes. It is what the latest price and the latest order give, at each of all that came, in order. Both go on afterwards.
///
/// Refused as `NoMemory`.
pub fn costs<W: Wait>(
    rt: &W,
    parker: &mut Parker,
    price: &mut Collector<u64>,
    bell: &TaskBell,
    orders: &mut Subscription<u64>,
    out: &mut Vec<u64>,
) -> Result<(), Refusal>
    ensures { OnOk result (TookCosts ⟦<u64 as Word>⟧.read_as price.old orders.old out.old.items out.new.items price.new orders.new) }
{
    let mut chain = combine(watching::<(), _>(price, bell), receiving(orders, rt), Cost);
    let _end = take_of(rt, parker, &mut chain, usize::MAX, out)?;
    Ok(())
}

/// What the threads need of a runtime.
pub trait Runtime: Wait + Threads + RandomSource + AllocGlobal + Sync {}

impl<R: Wait + Threads + RandomSource + AllocGlobal + Sync> Runtime for R {}

/// One thread: a price before each order. Then who combines is let go, whatever became of the orders.
fn sell(
    rt: &impl Wait,
    parker: &mut Parker,
    price: &mut WakingSeat<u64>,
    orders: &mut Emitter<u64>,
) -> Result<(), Refusal>
    requires { orders.old.ticket ≡ None }
{
    let sold = sell_each(rt, parker, price, orders);
    price.stop();
    sold
}

fn sell_each(
    rt: &impl Wait,
    parker: &mut Parker,
    price: &mut WakingSeat<u64>,
    orders: &mut Emitter<u64>,
) -> Result<(), Refusal>
    requires { orders.old.ticket ≡ None }
{
    for number in 1..=10 {
        price.set(number);
        orders.emit(rt, parker, number)?;
    }
    Ok(())
}

/// The costs that another thread sees, which sleeps until there is a new price or a new order. The last one is the cost of the last order by
/// the last price; no order is left out.
///
/// Refused as `NoMemory`.
pub fn costs_of_ten(rt: &impl Runtime) -> Result<Vec<u64>, Refusal> {
    let mut parker = Parker::new(rt)?;
    let (mut price, mut orders, mut both) = state_and_flow(rt, 1u64, ORDERS)?;
    let prices = watching::<(), _>(&mut both.state, &both.bell);
    let mut costs = combine(prices, receiving(&mut both.flow, rt), Cost);
    let (seen, sold) = thread::join(
        rt,
        || take_list(rt, &mut costs, usize::MAX),
        ||
            requires { orders.ticket ≡ None }
        { sell(rt, &mut parker, &mut price, &mut orders) },
    );
    orders.close(rt);
    both.cancel(rt);
    sold.and(seen)
}
