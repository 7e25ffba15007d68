// Loads and stores over two pages whose hints both serve and whose bytes lie in RAM, where no check is missed.
ghost use Rattle.std.specs.Prelude.{◌≡◌, ◌<◌, length};
ghost use Rattle.word.specs.Ram.{bytes_in};
ghost use Rattle.quick.specs.AtOnce.{both_inside, both_stored};
ghost use Rattle.quick.specs.Says.{OfTwo, PutTwo};

use crate::{at_once, hint};
use cpu::place::Pages;
use cpu::{Core, place};
use word::ram::Width;

// The value of a load over two pages whose hints both serve and whose bytes lie in RAM, and where its first byte lies.
#[inline(always)]
pub(crate) fn load(core: &Core, va: u64, width: Width, base: u64, ram: &[u8]) -> Option<(u64, u64)>
    ensures { OfTwo core.now base ram.now va (bytes_in width) result }
{
    let on = core.bank().stage1_on(core.regime());
    if place::crosses(on, va, width.bytes()) {
        let len = ram.len() as u64;
        if let Some(pa) = hint::served(core, va, 1, base, len) {
            let next = place::next_page(va);
            if let Some(pa2) = hint::served(core, next, 1, base, len) {
                let in_page = place::in_page(va);
                if let Some(v) = at_once::read_both(
                    base,
                    ram,
                    Pages { in_page, pa, pa2 },
                    width.bytes(),
                ) {
                    return Some((pa, v));
                }
            }
        }
    }
    None
}

// The bytes of a store over two pages, where all lie in RAM by one test, and whether it was made.
#[inline(always)]
fn put_both(base: u64, ram: &mut [u8], p: Pages, width: Width, value: u64) -> bool
    requires some { 0 < p.in_page }
    requires few { p.in_page < bytes_in width }
    ensures made { result ≡ both_inside base (length ram.old) p (bytes_in width) }
    ensures after { ram.new ≡ both_stored base ram.old p (bytes_in width) value }
{
    match width {
        Width::Half => at_once::write_pair(base, ram, p.pa, p.pa2, value),
        Width::Byte | Width::Word | Width::Double => at_once::write_both(
            base,
            ram,
            p,
            width.bytes(),
            value,
        ),
    }
}

// A store over two pages whose hints both serve and whose bytes lie in RAM, and whether it was made.
#[inline(always)]
pub(crate) fn store(
    core: &Core,
    va: u64,
    width: Width,
    value: u64,
    base: u64,
    ram: &mut [u8],
) -> bool
    ensures { PutTwo core.now base ram.old va (bytes_in width) value result ram.new }
{
    let on = core.bank().stage1_on(core.regime());
    if place::crosses(on, va, width.bytes()) {
        let len = ram.len() as u64;
        if let Some(pa) = hint::served(core, va, 2, base, len) {
            let next = place::next_page(va);
            if let Some(pa2) = hint::served(core, next, 2, base, len) {
                let in_page = place::in_page(va);
                return put_both(base, ram, Pages { in_page, pa, pa2 }, width, value);
            }
        }
    }
    false
}
