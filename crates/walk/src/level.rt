// One level of a walk: where its descriptor lies, and what the descriptor says.
ghost use Rattle.std.specs.Prelude.{◌≡◌, ◌≤◌, ◌<◌};
ghost use Rattle.word.specs.Ram.{word_at};
ghost use Rattle.walk.specs.Table.{grainsize, addrselectbottom, descaddr, table_next, lookup_next};
ghost use Rattle.walk.specs.Table.{leaf_permissions, leaf_result, ends};
ghost use Rattle.walk.specs.State.{lookup_of, stepped, meant, Standing, Leads};

use crate::descriptor;
use crate::descriptor::Descriptor;
use crate::fsc::{FSC_ACCESS_FLAG, FSC_ADDR_SIZE, FSC_TRANSLATION, FSC_WALK_EXTERNAL};
use crate::rights::Permissions;
use word::ram::Width;
use word::{bits, ram};

/// What the registers say of every level.
#[derive(Clone, Copy)]
pub struct Params {
    /// A granule of 64 KiB, and not of 4 KiB.
    pub largegrain: bool,
    /// How many bits an output address may have.
    pub outputsize: u64,
    /// The regime has one privilege level and one range.
    pub singlepriv: bool,
    /// `SCTLR_ELx.WXN`.
    pub wxn: bool,
}

/// Where a walk stands.
#[derive(Clone, Copy)]
pub struct WalkState {
    /// The bits of all table descriptors passed, whose hierarchical attributes add up.
    pub tables: u64,
    /// The address of the table.
    pub table: u64,
    /// The address bit above those that index the table, and the lowest of these.
    pub top: u64,
    pub lsb: u64,
    pub level: u8,
}

/// A block or page descriptor, with the attributes of the tables above it.
#[derive(Clone, Copy)]
pub struct Leaf {
    /// The output address.
    pub oa: u64,
    pub desc: u64,
    /// EL0's rights in bits 0 to 2, the regime's own in bits 3 to 5: read, write, fetch.
    pub perms: u8,
    pub level: u8,
    /// nG clear: the same for every ASID.
    pub global: bool,
}

/// What a walk ends in: a leaf, or a fault status code.
pub type Walked = Result<Leaf, u8>;

/// A walk: its end, and how many descriptors it read.
#[derive(Clone, Copy)]
pub struct WalkResult {
    /// The leaf that it ends in, or its fault status code.
    pub end: Walked,
    /// How many descriptors it read, one that lies outside RAM too: 4 at most.
    pub reads: u8,
}

/// What a level's descriptor leads to: the next level, or the walk's end.
#[derive(Clone, Copy)]
pub enum Step {
    Next(WalkState),
    Leaf(Leaf),
    Fault(u8),
}

// log2 of the granule's bytes.
fn granule(largegrain: bool) -> u64
    ensures value { result ≡ grainsize largegrain }
    ensures bounds { (12 ≤ result) × (result ≤ 16) }
{
    if largegrain { 16 } else { 12 }
}

// The lowest address bit that indexes a table of the level.
pub(crate) fn lsb_of(largegrain: bool, level: u64) -> u64
    requires { level ≤ 3 }
    ensures value { result ≡ addrselectbottom largegrain level }
{
    let granule = granule(largegrain);
    granule + (granule - 3) * (3 - level)
}

// The address of the descriptor that va selects.
#[tactic(auto, using(crate::proofs::Levels::addresses), unfolding(crate::specs::Table::descaddr))]
pub(crate) fn descriptor_address(p: Params, w: WalkState, va: u64) -> u64
    requires { Standing p w }
    ensures { result ≡ descaddr p va (lookup_of p w) }
{
    let skip = 64 - w.top;
    let index = (va << skip) >> (skip + w.lsb);
    w.table + index * 8
}

// A table descriptor: the next level, unless the table lies beyond the output size.
#[tactic(auto, using(crate::proofs::Levels::tables), unfolding(crate::specs::Table::table_next))]
fn table_step(p: Params, w: WalkState, desc: Descriptor) -> Step
    requires standing { Standing p w }
    requires level_bound { (w.level < 3) × (p.outputsize ≤ 44) }
    ensures result_value { stepped p result ≡ meant p (table_next p (lookup_of p w) desc.0) }
    ensures leads { Leads p w result }
{
    if descriptor::beyond(desc.0, p.outputsize) {
        return Step::Fault(FSC_ADDR_SIZE | w.level);
    }
    let granule = granule(p.largegrain);
    Step::Next(WalkState {
        tables: w.tables | desc.0,
        table: descriptor::address(desc.0, granule),
        top: w.lsb,
        lsb: w.lsb - (granule - 3),
        level: w.level + 1,
    })
}

// The attributes of a leaf that decide permission.
#[inline(always)]
#[tactic(auto, unfolding(crate::specs::Table::leaf_permissions))]
fn permissions(p: Params, w: WalkState, desc: Descriptor) -> Permissions
    ensures { result ≡ leaf_permissions p (lookup_of p w) desc.0 }
{
    let two = !p.singlepriv;
    let tables = Descriptor(w.tables);
    Permissions {
        ap2: desc.ap2() || tables.ap_table1(),
        ap1: p.singlepriv || (desc.ap1() && !tables.ap_table0()),
        xn: desc.uxn() || tables.uxn_table(),
        pxn: two && (desc.pxn() || tables.pxn_table()),
    }
}

// A block or page descriptor: the leaf, unless blocks are not allowed there, its output lies beyond the output size,
// or its access flag is clear.
#[inline(always)]
#[tactic(auto, using(crate::proofs::Levels::leaves), unfolding(crate::specs::Table::leaf_result, crate::specs::Table::leaf_translation))]
fn leaf_step(p: Params, w: WalkState, va: u64, desc: Descriptor) -> Step
    requires standing { Standing p w }
    requires outputsize_bound { p.outputsize ≤ 44 }
    ensures result_value { stepped p result ≡ meant p (ends (leaf_result p va (lookup_of p w) desc.0)) }
    ensures leads { Leads p w result }
{
    let first_block_level = if p.largegrain { 2 } else { 1 };
    if w.level < first_block_level {
        return Step::Fault(FSC_TRANSLATION | w.level);
    }
    if descriptor::beyond(desc.0, p.outputsize) {
        return Step::Fault(FSC_ADDR_SIZE | w.level);
    }
    if !desc.af() {
        return Step::Fault(FSC_ACCESS_FLAG | w.level);
    }
    let frame = descriptor::address(desc.0, w.lsb);
    let offset = bits::low_bits(va, w.lsb);
    Step::Leaf(Leaf {
        oa: frame + offset,
        desc: desc.0,
        perms: permissions(p, w, desc).byte(p.singlepriv, p.wxn),
        level: w.level,
        global: p.singlepriv || !desc.not_global(),
    })
}

// What the descriptor of the level leads to.
#[inline(always)]
#[tactic(auto, unfolding(crate::specs::Table::lookup_next, crate::specs::Table::level_next))]
pub(crate) fn lookup(p: Params, w: WalkState, va: u64, base: u64, ram: &[u8]) -> Step
    requires standing { Standing p w }
    requires outputsize_bound { p.outputsize ≤ 44 }
    ensures result_value { stepped p result ≡ meant p (lookup_next (word_at base ram.now 8) p va (lookup_of p w)) }
    ensures leads { Leads p w result }
{
    let at = descriptor_address(p, w, va);
    let desc = match ram::read(base, ram, Width::Double, at) {
        Some(word) => Descriptor(word),
        None => return Step::Fault(FSC_WALK_EXTERNAL | w.level),
    };
    if !desc.valid() {
        return Step::Fault(FSC_TRANSLATION | w.level);
    }
    if desc.table_or_page() {
        if w.level < 3 {
            return table_step(p, w, desc);
        }
    } else if w.level == 3 {
        return Step::Fault(FSC_TRANSLATION | w.level);
    }
    leaf_step(p, w, va, desc)
}
