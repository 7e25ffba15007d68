// A call as words.
ghost use Rattle.std.specs.Prelude.{◌≡◌};
ghost use Rattle.call_words.specs.declared.op.DecodedException.TheVariants as DecodedException;
ghost use Rattle.call_words.specs.Ops.{kind_of, in_range, data_abort_of, insn_abort_of, exception_of, exception_at};
ghost use Rattle.call_words.specs.Ops.{key_of, view_at, translate_call, abort_call, mark_call, flip_call, call_of};

use cpu::call::Call;
use exception::kind::{DataAbort, Exception, InsnAbort};
use system::decode::Encoding;
use tlb::access::Kind;

// What a word names, or nothing.
#[derive(Clone, Copy)]
pub enum DecodedException {
    Known(Exception),
    Unknown,
}

#[derive(Clone, Copy)]
pub enum DecodedCall {
    Known(Call),
    Unknown,
}

#[tactic(auto, unfolding(crate::specs::Ops::data_abort_of))]
fn data_abort_of(addr: u64, write: u64, fsc: u64) -> DecodedException
    ensures { result ≡ data_abort_of addr write fsc }
{
    if fsc < 256 {
        let fault = fault::first(fsc as u8);
        match write {
            0 => DecodedException::Known(Exception::DataAbort(DataAbort {
                addr,
                write: false,
                fault,
            })),
            1 => DecodedException::Known(Exception::DataAbort(DataAbort {
                addr,
                write: true,
                fault,
            })),
            _ => DecodedException::Unknown,
        }
    } else {
        DecodedException::Unknown
    }
}

fn insn_abort_of(addr: u64, fsc: u64) -> DecodedException
    ensures { result ≡ insn_abort_of addr fsc }
{
    if fsc < 256 {
        let fault = fault::first(fsc as u8);
        DecodedException::Known(Exception::InsnAbort(InsnAbort { addr, fault }))
    } else {
        DecodedException::Unknown
    }
}

// An exception whose words are in range.
fn in_range(ok: bool, e: Exception) -> DecodedException
    ensures { result ≡ in_range ok e }
{
    if ok {
        DecodedException::Known(e)
    } else {
        DecodedException::Unknown
    }
}

// 0 Undefined; 1 SVC, 2 HVC, 3 SMC, 4 BRK, each with its immediate, of 16 bits; 5 data abort with address, write and
// status; 6 instruction abort with address and status; 7 PC alignment. Words out of range name nothing.
#[tactic(auto, unfolding(crate::specs::Ops::exception_of, crate::specs::Ops::call_exception_of))]
pub fn exception_of(code: u64, a: u64, b: u64, c: u64) -> DecodedException
    ensures { result ≡ exception_of code a b c }
{
    let ok = a < 0x1_0000;
    let imm = (a % 0x1_0000) as u16;
    match code {
        0 => DecodedException::Known(Exception::Undefined),
        1 => in_range(ok, Exception::Svc(imm)),
        2 => in_range(ok, Exception::Hvc(imm)),
        3 => in_range(ok, Exception::Smc(imm)),
        4 => in_range(ok, Exception::Brk(imm)),
        5 => data_abort_of(a, b, c),
        6 => insn_abort_of(a, b),
        7 => DecodedException::Known(Exception::PcAlignment),
        _ => DecodedException::Unknown,
    }
}

// The four words that name an exception.
#[tactic(auto, unfolding(crate::specs::Ops::exception_of, crate::specs::Ops::call_exception_of))]
pub fn words_of(e: Exception) -> [u64; 4]
    ensures { exception_at result ≡ DecodedException.Known e }
{
    match e {
        Exception::Undefined => [0, 0, 0, 0],
        Exception::Svc(imm) => [1, imm as u64, 0, 0],
        Exception::Hvc(imm) => [2, imm as u64, 0, 0],
        Exception::Smc(imm) => [3, imm as u64, 0, 0],
        Exception::Brk(imm) => [4, imm as u64, 0, 0],
        Exception::DataAbort(a) => {
            if a.write {
                [5, a.addr, 1, a.fault.fsc as u64]
            } else {
                [5, a.addr, 0, a.fault.fsc as u64]
            }
        }
        Exception::InsnAbort(a) => [6, a.addr, a.fault.fsc as u64, 0],
        Exception::PcAlignment => [7, 0, 0, 0],
    }
}

#[tactic(auto, unfolding(crate::specs::Ops::translate_call))]
fn translate_of(kind: u64, va: u64) -> DecodedCall
    ensures { result ≡ translate_call (kind_of kind) va }
{
    match Kind::try_from(kind) {
        Ok(kind) => DecodedCall::Known(Call::Translate(kind, va)),
        Err(_) => DecodedCall::Unknown,
    }
}

fn mark_of(word: u64) -> DecodedCall
    ensures { result ≡ mark_call word }
{
    match word {
        0 => DecodedCall::Known(Call::Mark(false)),
        1 => DecodedCall::Known(Call::Mark(true)),
        _ => DecodedCall::Unknown,
    }
}

/// Whether it is EL0's view: 0 privileged, 1 EL0's; any other word names none.
pub fn view_of(word: u64) -> Option<bool>
    ensures { result ≡ view_at word }
{
    match word {
        0 => Some(false),
        1 => Some(true),
        _ => None,
    }
}

#[tactic(auto, unfolding(crate::specs::Ops::flip_call))]
fn flip_of(kind: u64, user: u64, va: u64) -> DecodedCall
    ensures { result ≡ flip_call (kind_of kind) (view_at user) va }
{
    match (Kind::try_from(kind), view_of(user)) {
        (Ok(kind), Some(user)) => DecodedCall::Known(Call::Flip(kind, user, va)),
        _ => DecodedCall::Unknown,
    }
}

// A key that no 32 bits hold is that of no register.
pub fn key_of(word: u64) -> u32
    ensures { result ≡ key_of word }
{
    if word < 0x1_0000_0000 { word as u32 } else { 0 }
}

fn abort_of(code: u64, a: u64, b: u64, c: u64) -> DecodedCall
    ensures { result ≡ abort_call (exception_of code a b c) }
{
    match exception_of(code, a, b, c) {
        DecodedException::Known(e) => DecodedCall::Known(Call::Abort(e)),
        DecodedException::Unknown => DecodedCall::Unknown,
    }
}

// The call that eight words name.
#[tactic(auto, unfolding(crate::specs::Ops::call_of))]
pub fn call_of(op: &[u64; 8]) -> DecodedCall
    ensures { result ≡ call_of op.now }
{
    let a = op[1];
    let b = op[2];
    let c = op[3];
    let d = op[4];
    let e = op[5];
    match op[0] {
        1 => translate_of(a, b),
        2 => DecodedCall::Known(Call::DataPa(a)),
        3 => DecodedCall::Known(Call::FetchPa(a)),
        4 => DecodedCall::Known(Call::Load(a, b)),
        5 => DecodedCall::Known(Call::Store(a, b, c)),
        6 => DecodedCall::Known(Call::Fetch(a)),
        7 => DecodedCall::Known(Call::System(Encoding {
            op1: a,
            crn: b,
            crm: c,
            op2: d,
            rt: e,
        })),
        8 => {
            let key = key_of(a);
            DecodedCall::Known(Call::Register(key, b))
        }
        9 => DecodedCall::Known(Call::Level(a)),
        10 => mark_of(a),
        11 => DecodedCall::Known(Call::General(a, b)),
        12 => abort_of(a, b, c, d),
        13 => DecodedCall::Known(Call::Census(a, b)),
        14 => DecodedCall::Known(Call::Windows),
        15 => flip_of(a, b, c),
        _ => DecodedCall::Unknown,
    }
}
