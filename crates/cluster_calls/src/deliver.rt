// What a core has pending after a call.
ghost use Rattle.std.specs.Prelude.{◌≡◌, ◌<◌};
ghost use Rattle.cluster_calls.specs.Four.{delivered_after, is_quiet};

use cluster::Cluster;

/// Whether n is the number of a core that has nothing pending.
#[inline(always)]
pub(crate) fn is_quiet(cluster: &Cluster, n: u64) -> bool
    ensures { result ≡ is_quiet cluster.now.cores n }
{
    n < 4 && cluster.cores[n as usize].tlb.broadcast.is_none()
}

/// It is delivered to the other three, unless the number of core i's call says that it was refused.
#[inline(always)]
pub(crate) fn after(cluster: &mut Cluster, i: usize, number: u64)
    requires { i < 4 }
    ensures { cluster.new.cores ≡ delivered_after number cluster.old.cores i }
{
    if cluster.cores[i].tlb.broadcast.is_some() {
        unless_refused(cluster, i, number);
    }
}

#[cold]
#[inline(never)]
fn unless_refused(cluster: &mut Cluster, i: usize, number: u64)
    requires { i < 4 }
    ensures { cluster.new.cores ≡ delivered_after number cluster.old.cores i }
{
    if number == 0 || 255 < number {
        cluster.deliver(i);
    }
}
