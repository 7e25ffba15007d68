// One core, copied out and in, with what it has pending. Nothing is delivered.
ghost use Rattle.std.specs.Prelude.{◌≡◌};
ghost use Rattle.cluster.specs.Cluster.{core_in, put_in};
ghost use Rattle.cluster_calls.specs.Four.{if_core};

use cluster::Cluster;
use cpu::{Core, check};

/// A core is copied out: 0, or 8 and nothing is written.
pub fn get(cluster: &Cluster, n: u64, out: &mut Core) -> u64
    ensures number { result ≡ if_core n 0 8 }
    ensures core { out.new ≡ if_core n (core_in cluster.now.cores n) out.old }
{
    match check::core(n) {
        Ok(i) => {
            *out = cluster.cores[i];
            0
        }
        Err(missed) => missed.number() as u64,
    }
}

/// A core is copied in: 0, or 8 and nothing is written.
pub fn put(cluster: &mut Cluster, n: u64, from: &Core) -> u64
    ensures number { result ≡ if_core n 0 8 }
    ensures cores { cluster.new.cores ≡ put_in cluster.old.cores n from.now }
{
    match check::core(n) {
        Ok(i) => {
            cluster.cores[i] = *from;
            0
        }
        Err(missed) => missed.number() as u64,
    }
}
