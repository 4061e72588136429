//! What a trace's entries show, as JSON values.

ghost use Rattle.std.specs.Prelude.{◌≡◌, [], ◌∷◌, IfOk, OnOk};
ghost use Rattle.serde_json.specs.View.{view};
ghost use Rattle.std.specs.List.{AllByRecursion};
ghost use Rattle.fleet_trace.specs.Text.{counted, listed, word, order_data, verdict_data, take_data, tick_data, shut_data, entry_data};
ghost use Rattle.fleet_book.specs.declared.order.Order.{Order};
ghost use Rattle.fleet_trace.specs.Fits.{Fits32, OrderFits, VerdictFits, ArrivalFits, ByeFits, StampFits, EntryFits};

use super::values::{WriteValue, array_of, word, write_list};
use fleet_book::{Order, Verdict};
use fleet_history::{Arrival, Bye, Entry};
use serde_json::Value;
use std::alloc::{AllocError, Allocator, Global};

/// A word alone.
fn plain(alloc: Global, letters: &str) -> Result<Value, AllocError>
    ensures { IfOk result (λ v. view v ≡ listed (word letters.now ∷ [])) }
{
    array_of(alloc, [word(alloc, letters)?])
}

/// A word and a number.
fn numbered(alloc: Global, letters: &str, number: u64) -> Result<Value, AllocError>
    ensures { IfOk result (λ v. view v ≡ listed (word letters.now ∷ counted number ∷ [])) }
{
    array_of(alloc, [word(alloc, letters)?, Value::from(number)])
}

fn go_value(alloc: Global, robot: u32, cell: u32) -> Result<Value, AllocError>
    ensures { IfOk result (λ v. view v ≡ order_data (Order.Go robot cell)) }
{
    array_of(
        alloc,
        [word(alloc, "go")?, Value::from(robot), Value::from(cell)],
    )
}

impl WriteValue for Order {
    ghost written = { order_data };

    ghost fits = { OrderFits };

    fn write_value(&self, alloc: Global) -> Result<Value, AllocError> {
        match *self {
            Order::Go { robot, cell } => go_value(alloc, robot, cell),
            Order::Close => plain(alloc, "close"),
            Order::Withdraw { number } => numbered(alloc, "withdraw", number),
        }
    }
}

impl WriteValue for Verdict {
    ghost written = { verdict_data };

    ghost fits = { VerdictFits };

    fn write_value(&self, alloc: Global) -> Result<Value, AllocError> {
        match self.code() {
            Some(code) => numbered(alloc, "refused", u64::from(code)),
            None => match *self {
                Verdict::Accepted(number) => numbered(alloc, "accepted", number),
                Verdict::Withdrawn => plain(alloc, "withdrawn"),
                _ => plain(alloc, "closed"),
            },
        }
    }
}

fn shut_value(alloc: Global, robot: u32, farewell: Option<u32>) -> Result<Value, AllocError>
    ensures value { IfOk result (λ v. view v ≡ shut_data robot farewell) }
    ensures fits { OnOk result (Fits32 robot × StampFits farewell) }
{
    match farewell {
        None => array_of(alloc, [word(alloc, "shut")?, Value::from(robot)]),
        Some(stamp) => array_of(
            alloc,
            [word(alloc, "shut")?, Value::from(robot), Value::from(stamp)],
        ),
    }
}

fn take_value(
    alloc: Global,
    client: u32,
    order: &Order,
    verdict: &Verdict,
) -> Result<Value, AllocError>
    ensures value { IfOk result (λ v. view v ≡ take_data client order.now verdict.now) }
    ensures fits { OnOk result (Fits32 client × OrderFits order.now × VerdictFits verdict.now) }
{
    let name = word(alloc, "take")?;
    let order = order.write_value(alloc)?;
    let verdict = verdict.write_value(alloc)?;
    array_of(alloc, [name, Value::from(client), order, verdict])
}

fn tick_value(
    alloc: Global,
    to: &[u32],
    arrived: &[Arrival],
    farewells: &[Bye],
) -> Result<Value, AllocError>
    ensures value { IfOk result (λ v. view v ≡ tick_data to.now arrived.now farewells.now) }
    ensures fits { OnOk result (AllByRecursion Fits32 to.now × AllByRecursion ArrivalFits arrived.now × AllByRecursion ByeFits farewells.now) }
{
    let name = word(alloc, "tick")?;
    let to = write_list(alloc, to)?;
    let arrived = write_list(alloc, arrived)?;
    let farewells = write_list(alloc, farewells)?;
    array_of(alloc, [name, to, arrived, farewells])
}

impl<A: Allocator + Copy> WriteValue for Entry<A> {
    ghost written = { entry_data };

    ghost fits = { EntryFits };

    fn write_value(&self, alloc: Global) -> Result<Value, AllocError> {
        match self {
            Entry::Take {
                client,
                order,
                verdict,
            } => take_value(alloc, *client, order, verdict),
            Entry::Tick {
                to,
                arrived,
                farewells,
            } => tick_value(
                alloc,
                to.as_slice(),
                arrived.as_slice(),
                farewells.as_slice(),
            ),
            Entry::Shut { robot, farewell } => shut_value(alloc, *robot, *farewell),
        }
    }
}
