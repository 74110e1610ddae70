//! Plans with their certificates.
ghost use Rattle.std.specs.Prelude.{◌≡◌, ◌≤◌, length, IfOk};
ghost use Rattle.mig_base.specs.Bounding.{bound_value, class_of, quotient};
ghost use Rattle.mig_base.specs.Certificates.{CertFits};
ghost use Rattle.mig_base.specs.Targets.{IsRoomy};
ghost use Rattle.mig_base.specs.Transfers.{transfer_graph};
ghost use Rattle.mig_best.specs.Certified.{IsCertified};

use crate::choosing::best_plan_from;
use mig_base::{Bound, Cert, Class, Input, MAX_ROUNDS, Plan};
use mig_bounds::best_bound;
use mig_graph::Graph;
use std::alloc::{AllocError, Global};

/// A plan and its certificate.
#[derive(Drop)]
pub struct Certified {
    pub plan: Plan,
    pub cert: Cert,
}

/// The class of a transfer graph.
fn class_in(graph: &Graph) -> Class
    ensures { result ≡ class_of graph.now }
{
    if graph.duplex() {
        Class::Duplex
    } else if graph.all_even() {
        Class::Even
    } else {
        Class::General
    }
}

/// The number of rounds that a bound states.
pub fn value_of(bound: &Bound) -> u32
    ensures { result ≡ bound_value bound.now }
{
    match bound {
        Bound::Nothing => 0,
        Bound::OfDisk { value, .. } | Bound::OfSide { value, .. } | Bound::OfSet { value, .. } =>
            *value,
    }
}

/// The certificate of a plan, with this bound.
fn certify(graph: &Graph, plan: &Plan, bound: Bound) -> Cert
    requires { length plan.now ≤ MAX_ROUNDS }
    ensures rounds { result.rounds ≡ length plan.now }
    ensures quotient { result.quotient ≡ quotient graph.now }
    ensures class { result.class ≡ class_of graph.now }
    ensures bound { result.bound ≡ bound }
{
    Cert {
        rounds: plan.rounds().len() as u32,
        quotient: graph.quotient(),
        class: class_in(graph),
        bound,
    }
}

/// The best plan for an input, over its transfer graph, and its certificate. Errs for want of memory only.
///
/// The search for a plan starts at the bound's value: no plan has fewer rounds, so none is lost.
pub fn certified_plan(alloc: Global, input: &Input, graph: &Graph) -> Result<Certified, AllocError>
    requires graph { graph.now ≡ transfer_graph input.now }
    requires roomy { IsRoomy input.now }
    ensures made { IfOk result (λ made. IsCertified input.now made.plan made.cert) }
    ensures fits { IfOk result (λ made. CertFits input.now made.cert) }
{
    input.keeps_rules();
    let bound = best_bound(alloc, graph)?;
    let plan = best_plan_from(alloc, input, graph, value_of(&bound))?;
    let cert = certify(graph, &plan, bound);
    Ok(Certified { plan, cert })
}
