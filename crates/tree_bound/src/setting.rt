//! What all leaves of a certificate share.

ghost use Rattle.std.specs.Prelude.{◌≡◌, ◌+◌, ◌*◌, ◌≤◌, IfOk};
ghost use Rattle.std.specs.List.{AllByRecursion};
ghost use Rattle.solomon_reader.specs.Problem.{customer_count};
ghost use Rattle.solomon_reader.specs.CertificateText.{IsListedSet};
ghost use Rattle.solomon_reader.specs.Bound.{ceiling_of, listed_sets, routes_counted};
ghost use Rattle.solomon_reader.specs.declared.limits.TheConstants.{MOST_CUSTOMERS, MOST_DEMAND};
ghost use Rattle.certificate.specs.Text.{version_of};
ghost use Rattle.leaf_arcs.specs.Props.{props};

use certificate::{Cert, Version};
use leaf_arcs::Network;
use solomon_reader::Instance;
use std::alloc::{AllocError, Global};

/// What all leaves of a certificate share; it is made once.
#[derive(Drop)]
pub struct Setting<'i> {
    pub(crate) network: Network<'i>,
    pub(crate) version: &'i Version,
    /// How many routes the version counts on.
    pub(crate) routes: u32,
    /// The ceiling plus one, in tenths.
    pub(crate) most: u32,
    pub(crate) state_limit: usize,
    ghost routes_are: { routes ≡ routes_counted (version_of version.now) network.neighbours.instance.now },
    ghost few: { routes ≤ MOST_CUSTOMERS * MOST_DEMAND },
    ghost listed: { AllByRecursion (IsListedSet (customer_count network.neighbours.instance.now)) (listed_sets (version_of version.now)) } by { Prim.hlevel props },
    ghost most_is: { most ≡ ceiling_of network.neighbours.instance.now + 1 },
}

/// How many routes a version counts on.
fn routes_counted(instance: &Instance, version: &Version) -> u32
    ensures value { result ≡ routes_counted (version_of version.now) instance.now }
    ensures bound { result ≤ MOST_CUSTOMERS * MOST_DEMAND }
{
    match version {
        Version::One => 0,
        Version::Two | Version::WithSets(_) | Version::WithRows { .. } => {
            instance.fewest_routes()
        }
    }
}

impl<'i> Setting<'i> {
    /// The setting of an instance for a certificate.
    pub(crate) fn new(
        alloc: Global,
        instance: &'i Instance,
        cert: &'i Cert,
        state_limit: usize,
    ) -> Result<Setting<'i>, AllocError>
        requires { cert.now.size ≡ customer_count instance.now }
        ensures instance { IfOk result (λ s. s.network.neighbours.instance.now ≡ instance.now) }
        ensures k { IfOk result (λ s. s.network.neighbours.k ≡ cert.now.neighbours) }
        ensures version { IfOk result (λ s. version_of s.version.now ≡ cert.now.version) }
    {
        let parts = cert.parts();
        let leaves = parts.nodes.len() / 2 + 1;
        Ok(Setting {
            network: Network::new(alloc, instance, parts.neighbours as u8, leaves)?,
            version: &parts.version,
            routes: routes_counted(instance, &parts.version),
            most: instance.above_ceiling(),
            state_limit,
        })
    }
}
