// What looks at tables and leaves the core that it asks, and RAM, as they were.
ghost use Rattle.cluster_calls.specs.Looks.{ClusterCensus, ClusterWindows, ClusterFlip};

use crate::deliver;
use cluster::Cluster;
use cpu::check;

/// How many of so many 4 KiB pages, from the page of `first` on, end at each status, at each permission byte, and
/// flat: 0 and all 129 counts, or the number of the first check that it misses, and no count is written.
#[inline(always)]
pub fn census(
    cluster: &mut Cluster,
    n: u64,
    first: u64,
    pages: u64,
    base: u64,
    ram: &[u8],
    counts: &mut [u64; 129],
) -> u64
    ensures { ClusterCensus first pages base ram.now cluster.old.cores n result counts.old counts.new
        cluster.new.cores }
{
    match check::core(n) {
        Ok(i) => {
            let number = core_calls::inspect::census(
                &cluster.cores[i],
                first,
                pages,
                counts,
                base,
                ram,
            );
            deliver::after(cluster, i, number);
            number
        }
        Err(missed) => missed.number() as u64,
    }
}

/// Which two windows of a list share a physical page: number and words as of a single core.
#[inline(always)]
pub fn windows(
    cluster: &mut Cluster,
    n: u64,
    list: &[u8],
    base: u64,
    ram: &[u8],
    out: &mut [u64; 3],
) -> u64
    ensures { ClusterWindows list.now base ram.now cluster.old.cores n result out.old out.new cluster.new.cores }
{
    match check::core(n) {
        Ok(i) => {
            let number = core_calls::inspect::windows(&cluster.cores[i], list, out, base, ram);
            deliver::after(cluster, i, number);
            number
        }
        Err(missed) => missed.number() as u64,
    }
}

/// Which bit of a descriptor, flipped in RAM, changes how an access ends: number and words as of a single core.
#[inline(always)]
pub fn flip(
    cluster: &mut Cluster,
    n: u64,
    va: u64,
    kind: u64,
    user: u64,
    base: u64,
    ram: &mut [u8],
    out: &mut [u64; 3],
) -> u64
    ensures { ClusterFlip va kind user base ram.old cluster.old.cores n result out.old out.new ram.new
        cluster.new.cores }
{
    match check::core(n) {
        Ok(i) => {
            let number = core_calls::inspect::flip(
                &cluster.cores[i],
                va,
                kind,
                user,
                out,
                base,
                ram,
            );
            deliver::after(cluster, i, number);
            number
        }
        Err(missed) => missed.number() as u64,
    }
}
