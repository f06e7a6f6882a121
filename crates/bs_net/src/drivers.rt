//! Each net has at most one driver, and each net that is read has one.
ghost use Rattle.std.specs.Prelude.{◌≡◌, ◌<◌, ◌^◌, ◌&&◌, not, length, OnOk, IfErr, IfSome, IfNone, None};
ghost use Rattle.bs_net.specs.Lowest.{IsLowest, NonePasses};
ghost use Rattle.bs_net.specs.Tallies.{is_often, is_never, often_at, undriven_at};
ghost use Rattle.bs_net.specs.Netlist.{parts_of};
ghost use Rattle.bs_net.specs.Parts.{PartsArePlaced};
ghost use Rattle.bs_net.specs.Check.{too_many, PassesNets, IsFault};

use crate::fault::NetFault;
use crate::net::NetId;
use crate::raw::Raw;
use crate::tallies::{UseCount, driver_tallies, reader_tallies};
use std::alloc::Global;

/// Whether a net is named twice or more.
fn is_often(tally: UseCount) -> bool
    ensures { result ≡ is_often tally }
{
    match tally {
        UseCount::Never => false,
        UseCount::Once => false,
        UseCount::Often => true,
    }
}

/// Whether a net is not named.
fn is_never(tally: UseCount) -> bool
    ensures { result ≡ is_never tally }
{
    match tally {
        UseCount::Never => true,
        UseCount::Once => false,
        UseCount::Often => false,
    }
}

/// The lowest net that is named twice or more.
fn first_shared(drivers: &[UseCount]) -> Option<u32>
    requires { length drivers.now < 2 ^ 32 }
    ensures found { IfSome result (λ n. IsLowest (often_at drivers.now) (length drivers.now) n) }
    ensures none { IfNone result (NonePasses (often_at drivers.now) (length drivers.now)) }
{
    for net in 0..drivers.len() {
        if is_often(drivers[net]) {
            return Some(net as u32);
        }
    }
    None
}

/// Whether a net is read and is driven by nothing.
fn is_undriven(readers: UseCount, drivers: UseCount) -> bool
    ensures { result ≡ (not (is_never readers) && is_never drivers) }
{
    !is_never(readers) && is_never(drivers)
}

/// The lowest net that is read and is driven by nothing.
fn first_undriven(readers: &[UseCount], drivers: &[UseCount]) -> Option<u32>
    requires same { length readers.now ≡ length drivers.now }
    requires few { length drivers.now < 2 ^ 32 }
    ensures found { IfSome result (λ n. IsLowest (undriven_at readers.now drivers.now) (length drivers.now) n) }
    ensures none { IfNone result (NonePasses (undriven_at readers.now drivers.now) (length drivers.now)) }
{
    for net in 0..readers.len() {
        if is_undriven(readers[net], drivers[net]) {
            return Some(net as u32);
        }
    }
    None
}

/// Whether each net has at most one driver, and each net that is read has one; or the first refusal of these.
pub(crate) fn nets_pass(alloc: Global, raw: &Raw) -> Result<(), NetFault>
    requires placed { PartsArePlaced (parts_of raw.now) }
    requires few { too_many (parts_of raw.now) ≡ None }
    ensures ok { OnOk result (PassesNets (parts_of raw.now)) }
    ensures err { IfErr result (λ fault. IsFault (parts_of raw.now) fault) }
{
    let drivers = driver_tallies(alloc, raw)?;
    if let Some(n) = first_shared(drivers.as_slice()) {
        return Err(NetFault::SecondDriver(NetId(n)));
    }
    let readers = reader_tallies(alloc, raw)?;
    match first_undriven(readers.as_slice(), drivers.as_slice()) {
        Some(n) => Err(NetFault::Undriven(NetId(n))),
        None => Ok(()),
    }
}
