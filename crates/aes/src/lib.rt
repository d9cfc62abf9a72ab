// The block cipher AES-128 of FIPS 197, encryption alone.
#![tactic(auto)]

mod rounds;
mod schedule;
mod table;
mod words;

ghost use Rattle.std.specs.Prelude.{◌≡◌, [], replicate};
ghost use Rattle.std.specs.Result.{result_unwrap_or};
ghost use Rattle.refusals.specs.Number.{refusal_of};
ghost use Rattle.refusals.specs.Call.{Answered};
ghost use Rattle.aes.specs.Aes.{cipher, expand_key_call, aes_call};

use refusals::Refusal;

// The words of an expanded key, four a round key, to be lent to `encrypt_block`, from a key of 16 octets.
pub fn expand_key(key: &[u8]) -> Result<[u32; 44], Refusal>
    ensures { Answered (expand_key_call key.now) (refusal_of result) [] (result_unwrap_or result (replicate 44 0)) }
{
    let Some(key) = key.as_array() else {
        return Err(Refusal::Key);
    };
    Ok(schedule::expanded(key))
}

// A block encrypted by the round keys that are lent to it.
pub fn encrypt_block(words: &[u32; 44], block: &[u8; 16]) -> [u8; 16]
    ensures { result ≡ cipher words.now block.now }
{
    rounds::encrypted(words, block)
}

// Encrypts a block under a key, both of 16 octets.
pub fn aes(key: &[u8], block: &[u8], output: &mut [u8]) -> Result<(), Refusal>
    ensures { Answered (aes_call key.now block.now output.old) (refusal_of result) [] output.new }
{
    let Some(key) = key.as_array() else {
        return Err(Refusal::Key);
    };
    let Some(block) = block.as_array() else {
        return Err(Refusal::Length);
    };
    if output.len() < 16 {
        return Err(Refusal::Room);
    }
    let encrypted = rounds::encrypted(&schedule::expanded(key), block);
    output[..16].copy_from_slice(&encrypted);
    Ok(())
}
