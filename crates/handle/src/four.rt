// The handle of a cluster, as that of a core.
ghost use Rattle.std.specs.Prelude.{◌≡◌};
ghost use Rattle.std.specs.Borrow.{full_share};
ghost use Rattle.std.specs.Ptr.{lies_at};
ghost use types.Logic.{sem};
ghost use Rattle.cluster.specs.declared.Cluster.{Cluster};
ghost use Rattle.cluster.specs.contracts.Cluster.{the_row as cluster_row};

use cluster::Cluster;
use std::marker::Model;

/// The address of a cluster in memory that the caller keeps. The cluster that lies there is the handle's own: nothing
/// else reads or writes it while the handle is in use.
#[repr(C)]
pub struct ClusterHandle {
    at: *mut Cluster,
    pub ghost cluster: { Cluster },
}

impl Model for ClusterHandle {
    ghost also_owns = { λ h. lies_at cluster_row full_share h.at h.cluster };
}

impl ClusterHandle {
    ghost use Rattle.handle.specs.LendingCluster.{lends_cluster};

    /// The cluster, lent for as long as the handle is: what is written through the reference is the handle's cluster
    /// after.
    pub fn cluster(&mut self) -> &mut Cluster
        ensures* writes_back { sem 𝓛 (lends_cluster self.entry result) }
        ensures value { result.now ≡ self.old.cluster }
    {
        unsafe { &mut *self.at }
    }
}
