// The fixed inputs of each algorithm, named once (document 01; document 004, table B.1).
ghost use Rattle.std.specs.Prelude.{◌≡◌, ℕ, ◌<◌, ◌≤◌};
ghost use Rattle.std.proofs.Common.{rules};
ghost use Rattle.kgcore.specs.declared.Inputs.{Inputs};

use kgcore::Inputs;

// The inputs of KGCORE that an algorithm fixes.
pub(crate) trait Fixed {
    ghost CA: { ℕ };

    ghost CB: { ℕ };

    ghost CE: { ℕ };

    const CA: u8;

    const CB: u8;

    const CE: u16;
}

// The inputs of KGCORE, of which a caller sets CC and CD.
pub(crate) fn inputs<K: Fixed>(cc: u32, cd: u8) -> Inputs
    ensures { let inputs : Inputs = record { ca = K.CA; cb = K.CB; cc = cc; cd = cd; ce = K.CE } in result ≡ inputs }
{
    Inputs {
        ca: K::CA,
        cb: K::CB,
        cc,
        cd,
        ce: K::CE,
    }
}

// A kind of A5/4, which fixes CL too.
pub(crate) trait Kind: Fixed {
    ghost CL: { ℕ };

    ghost fits: { (Self.CB ≤ 31) × ((0 < CL) × (CL ≤ 696)) };

    const CL: u32;
}

#[derive(Clone, Copy)]
pub(crate) struct Gsm;

impl Fixed for Gsm {
    ghost CA = { 0x0F };

    ghost CB = { 0 };

    ghost CE = { 0 };

    const CA: u8 = 0x0F;

    const CB: u8 = 0;

    const CE: u16 = 0;
}

impl Kind for Gsm {
    ghost CL = { 228 };

    ghost fits = { Prim.search rules };

    const CL: u32 = 228;
}

#[derive(Clone, Copy)]
pub(crate) struct Ecsd;

impl Fixed for Ecsd {
    ghost CA = { 0xF0 };

    ghost CB = { 0 };

    ghost CE = { 0 };

    const CA: u8 = 0xF0;

    const CB: u8 = 0;

    const CE: u16 = 0;
}

impl Kind for Ecsd {
    ghost CL = { 696 };

    ghost fits = { Prim.search rules };

    const CL: u32 = 696;
}

// CL is eight times the octets asked for, so it is no constant here.
#[derive(Clone, Copy)]
pub(crate) struct Gea4;

impl Fixed for Gea4 {
    ghost CA = { 0xFF };

    ghost CB = { 0 };

    ghost CE = { 0 };

    const CA: u8 = 0xFF;

    const CB: u8 = 0;

    const CE: u16 = 0;
}
