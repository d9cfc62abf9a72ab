// The keystreams of document 004: A5/4 for GSM, A5/4 for ECSD and GEA4 for GPRS. Each is KGCORE with the fixed inputs of its kind. Under a key of
// 8 octets they are A5/3 and GEA3.
#![tactic(auto)]

mod kinds;

ghost use Rattle.std.specs.Prelude.{[], replicate};
ghost use Rattle.std.specs.Result.{result_unwrap_or};
ghost use Rattle.refusals.specs.Number.{refusal_of};
ghost use Rattle.refusals.specs.Call.{Answered};
ghost use Rattle.keystreams.specs.Key.{prepare_key_call};
ghost use Rattle.keystreams.specs.A5.{Kind, a5_call, gsm_kind, ecsd_kind};
ghost use Rattle.keystreams.specs.Gea4.{gea4_call};

use kinds::{Ecsd, Gea4, Gsm, Kind};
use refusals::Refusal;

// The 16 octets that a key yields: one of 8 octets itself twice, one of 16 itself.
#[tactic(auto, unfolding(refusals::specs::Refusal::first, crate::specs::Key::key_order, crate::specs::Key::is_key, crate::specs::Key::prepared))]
pub fn prepare_key(key: &[u8]) -> Result<[u8; 16], Refusal>
    ensures { Answered (prepare_key_call key.now) (refusal_of result) [] (result_unwrap_or result (replicate 16 0)) }
{
    if !matches!(key.len(), 8 | 16) {
        return Err(Refusal::Key);
    }
    let mut octets = [0u8; 16];
    octets[..key.len()].copy_from_slice(key);
    octets[key.len()..].copy_from_slice(&key[..16 - key.len()]);
    Ok(octets)
}

// A5/4 of a kind: COUNT has 22 bits, and half of the bits go to each block.
#[tactic(auto, unfolding(refusals::specs::Refusal::first, crate::specs::Key::key_order, crate::specs::A5::a5_order, crate::specs::A5::half, octets::specs::Bits::size))]
fn a5<K: Kind>(key: &[u8], count: u32, block1: &mut [u8], block2: &mut [u8]) -> Result<(), Refusal>
    ensures { let kind : Kind = record { ca = K.CA; cb = K.CB; ce = K.CE; cl = K.CL } in
        Answered (a5_call kind key.now count (record { one = block1.old; two = block2.old })) (refusal_of result) [] (record { one = block1.new; two = block2.new }) }
{
    let prepared = prepare_key(key)?;
    if 4194303 < count {
        return Err(Refusal::Range);
    }
    let cl = K::CL;
    let half = cl / 2;
    let size = octets::size(half);
    if block1.len() < size || block2.len() < size {
        return Err(Refusal::Room);
    }
    let inputs = kinds::inputs::<K>(count, 0);
    let mut stream = [0u8; 87];
    kgcore::kgcore(inputs, &prepared, cl, &mut stream).unwrap();
    octets::cut(&stream, 0, half, block1).unwrap();
    octets::cut(&stream, half, half, block2).unwrap();
    Ok(())
}

// A5/4 for GSM: two blocks of 114 bits, 15 octets each.
#[tactic(auto, unfolding(crate::specs::A5::gsm_kind))]
pub fn gsm(key: &[u8], count: u32, block1: &mut [u8], block2: &mut [u8]) -> Result<(), Refusal>
    ensures { Answered (a5_call gsm_kind key.now count (record { one = block1.old; two = block2.old })) (refusal_of result) [] (record { one = block1.new; two = block2.new }) }
{
    a5::<Gsm>(key, count, block1, block2)
}

// A5/4 for ECSD: two blocks of 348 bits, 44 octets each.
#[tactic(auto, unfolding(crate::specs::A5::ecsd_kind))]
pub fn ecsd(key: &[u8], count: u32, block1: &mut [u8], block2: &mut [u8]) -> Result<(), Refusal>
    ensures { Answered (a5_call ecsd_kind key.now count (record { one = block1.old; two = block2.old })) (refusal_of result) [] (record { one = block1.new; two = block2.new }) }
{
    a5::<Ecsd>(key, count, block1, block2)
}

// GEA4: `m` octets for an INPUT and a direction.
#[tactic(auto, unfolding(refusals::specs::Refusal::first, crate::specs::Key::key_order, crate::specs::Gea4::gea4_order))]
pub fn gea4(key: &[u8], input: u32, direction: u8, m: u32, output: &mut [u8]) -> Result<(), Refusal>
    ensures { Answered (gea4_call key.now input direction m output.old) (refusal_of result) [] output.new }
{
    let prepared = prepare_key(key)?;
    if 1 < direction {
        return Err(Refusal::Range);
    }
    if m == 0 || 65536 < m {
        return Err(Refusal::Size);
    }
    if output.len() < m as usize {
        return Err(Refusal::Room);
    }
    let inputs = kinds::inputs::<Gea4>(input, direction);
    kgcore::kgcore(inputs, &prepared, 8 * m, output)
}
