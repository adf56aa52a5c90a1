ghost use Rattle.model.specs.State.{plain};
ghost use Rattle.model.specs.Ipv4.{fixed};
ghost use Rattle.model.specs.Call as call;
ghost use Rattle.pool.specs.Ipv4.{ipv4};
ghost use Rattle.promise.specs.Promise.{Promise};
ghost use Rattle.promise.specs.Trees.{tree};
ghost use Rattle.codes.specs.Codes.{prefix_in, route_in};

use codes::route_from;
use route::{Hand, Length, Origin, Prefix};

#[unsafe(no_mangle)]
pub extern "C" fn rishavand_add(
    pool: &mut [u32],
    address: u32,
    length: u32,
    kind: u32,
    port: u32,
    gateway: u32,
) -> u32
    ensures { Promise (tree ipv4) (call.add (route_in address length kind port gateway fixed)) pool.old pool.new result call.nothing }
{
    let route = route_from(address, length, kind, port, gateway, Origin::Fixed);
    route::number(table::add(pool, route))
}

#[unsafe(no_mangle)]
pub extern "C" fn rishavand_change(
    pool: &mut [u32],
    address: u32,
    length: u32,
    kind: u32,
    port: u32,
    gateway: u32,
) -> u32
    ensures { Promise (tree ipv4) (call.change (route_in address length kind port gateway fixed)) pool.old pool.new result call.nothing }
{
    let route = route_from(address, length, kind, port, gateway, Origin::Fixed);
    route::number(table::change_hop(pool, route))
}

#[unsafe(no_mangle)]
pub extern "C" fn rishavand_delete(pool: &mut [u32], address: u32, length: u32) -> u32
    ensures { Promise (tree ipv4) (call.delete plain (prefix_in address length)) pool.old pool.new result call.nothing }
{
    let prefix = Prefix::new(address, Length(length));
    route::number(table::delete(pool, Hand::Plain, prefix))
}

#[unsafe(no_mangle)]
pub extern "C" fn rishavand_open(pool: &mut [u32]) -> u32
    ensures { Promise (tree ipv4) call.open_trial pool.old pool.new result call.nothing }
{
    route::number(table::open_trial(pool))
}

#[unsafe(no_mangle)]
pub extern "C" fn rishavand_keep(pool: &mut [u32]) -> u32
    ensures { Promise (tree ipv4) call.keep pool.old pool.new result call.nothing }
{
    route::number(table::keep_trial(pool))
}

#[unsafe(no_mangle)]
pub extern "C" fn rishavand_back_out(pool: &mut [u32]) -> u32
    ensures { Promise (tree ipv4) call.back_out pool.old pool.new result call.nothing }
{
    route::number(table::back_out(pool))
}

#[unsafe(no_mangle)]
pub extern "C" fn rishavand_step_back(pool: &mut [u32]) -> u32
    ensures { Promise (tree ipv4) call.step_back pool.old pool.new result call.nothing }
{
    route::number(table::step_back(pool))
}
