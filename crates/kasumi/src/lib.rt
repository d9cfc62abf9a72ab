// The block cipher KASUMI of TS 35.202. The standard's names (FL, FO, FI, KL, KO, KI) stay in this crate.
#![tactic(auto)]

mod halves;
mod rounds;
mod schedule;

ghost use Rattle.std.specs.Prelude.{◌≡◌, [], ◌∷◌, replicate};
ghost use Rattle.std.specs.Result.{result_unwrap_or};
ghost use Rattle.refusals.specs.Number.{refusal_of};
ghost use Rattle.refusals.specs.Call.{Answered};
ghost use Rattle.kasumi.specs.Kasumi.{kasumi_call};
ghost use Rattle.kasumi.specs.Lent.{round_keys_call, ciphered_by};

use refusals::Refusal;
use rounds::Prepared;

// The keys of all rounds, eight words a round, to be lent to `cipher_block`, from a key of 16 octets.
pub fn round_keys(key: &[u8]) -> Result<[u16; 64], Refusal>
    ensures { Answered (round_keys_call key.now) (refusal_of result) [] (result_unwrap_or result (replicate 64 0)) }
{
    let Ok(key) = <&[u8; 16]>::try_from(key) else {
        return Err(Refusal::Key);
    };
    Ok(schedule::keys_of_rounds(key))
}

// KASUMI of a block, by the table and the round keys that are lent to it.
pub fn cipher_block(table: &[u16; 640], words: &[u16; 64], block: u64) -> u64
    ensures { result ≡ ciphered_by table.now words.now block }
{
    let prepared = Prepared { table, words };
    let after2 = prepared.two_rounds(1, block);
    let after4 = prepared.two_rounds(3, after2);
    let after6 = prepared.two_rounds(5, after4);
    prepared.two_rounds(7, after6)
}

// KASUMI of a block under a key of 16 octets.
pub fn kasumi(key: &[u8], block: u64) -> Result<u64, Refusal>
    ensures { Answered (kasumi_call key.now block) (refusal_of result) (result_unwrap_or result 0 ∷ []) tt }
{
    let words = round_keys(key)?;
    let table = sboxes::fi_table();
    Ok(cipher_block(&table, &words, block))
}
