// A cluster in memory that the caller gives.
ghost use Rattle.std.specs.Borrow.{full_share};
ghost use Rattle.std.specs.Ptr.{lies_at, room_at};
ghost use types.Logic.{sem};
ghost use Rattle.cluster.specs.Cluster.{fresh_cluster};
ghost use Rattle.cluster.specs.contracts.Cluster.{the_row as cluster_row};

use cluster::Cluster;
use handle::ClusterHandle;

// What the header says of a cluster's memory: the handle, then the four cores.
const _: () = prove!(size_of::<ClusterHandle>() == 8);

const _: () = prove!(size_of::<Cluster>() == 166944);

const _: () = prove!(align_of::<Cluster>() == 8);

/// Memory for a cluster becomes four cores after reset.
#[unsafe(no_mangle)]
pub unsafe extern "C" fn a72_cluster_init_at(at: *mut Cluster)
    requires* { sem 𝓛 (room_at cluster_row at) }
    ensures* { sem 𝓛 (lies_at cluster_row full_share at (record { cores = fresh_cluster })) }
{
    *at = Cluster::new();
}
