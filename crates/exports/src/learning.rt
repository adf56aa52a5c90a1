// The changes that a learner makes: routes with a metric, which a plain call may take over and which leave fixed routes alone.
ghost use Rattle.model.specs.State.{learner};
ghost use Rattle.model.specs.Ipv4.{learned};
ghost use Rattle.model.specs.Call as call;
ghost use Rattle.pool.specs.Ipv4.{ipv4};
ghost use Rattle.promise.specs.Promise.{Promise};
ghost use Rattle.promise.specs.Trees.{tree};
ghost use Rattle.codes.specs.Codes.{prefix_in, route_in};

use codes::route_from;
use route::{Hand, Length, Metric, Origin, Prefix};

#[unsafe(no_mangle)]
pub extern "C" fn rishavand_learned_add(
    pool: &mut [u32],
    address: u32,
    length: u32,
    kind: u32,
    port: u32,
    gateway: u32,
    metric: u32,
) -> u32
    ensures { Promise (tree ipv4) (call.add (route_in address length kind port gateway (learned metric))) pool.old pool.new result call.nothing }
{
    let origin = Origin::Learned(Metric(metric));
    let route = route_from(address, length, kind, port, gateway, origin);
    route::number(table::add(pool, route))
}

#[unsafe(no_mangle)]
pub extern "C" fn rishavand_learned_change(
    pool: &mut [u32],
    address: u32,
    length: u32,
    kind: u32,
    port: u32,
    gateway: u32,
    metric: u32,
) -> u32
    ensures { Promise (tree ipv4) (call.change (route_in address length kind port gateway (learned metric))) pool.old pool.new result call.nothing }
{
    let origin = Origin::Learned(Metric(metric));
    let route = route_from(address, length, kind, port, gateway, origin);
    route::number(table::change_hop(pool, route))
}

#[unsafe(no_mangle)]
pub extern "C" fn rishavand_learned_delete(pool: &mut [u32], address: u32, length: u32) -> u32
    ensures { Promise (tree ipv4) (call.delete learner (prefix_in address length)) pool.old pool.new result call.nothing }
{
    let prefix = Prefix::new(address, Length(length));
    route::number(table::delete(pool, Hand::Learner, prefix))
}
