// The calls of AES. The words of an expanded key are octets here, four a word, the highest first.
use crate::fields::{Failure, Fields};
use crate::handed::{handed_out, number_of};
use crate::tell::Told;

// expand_key KEY
pub(crate) fn expand_key(rt: HostRuntime, fields: &mut Fields<'_>) -> Result<(), Failure> {
    let key = fields.octets()?;
    fields.end()?;
    let expanded = aes::expand_key(key);
    let words = handed_out(expanded).map(u32::to_be_bytes);
    println!(rt; "{} {}", number_of(&expanded), Told(words.as_flattened()))?;
    Ok(())
}

// encrypt_block WORDS BLOCK
pub(crate) fn encrypt_block(rt: HostRuntime, fields: &mut Fields<'_>) -> Result<(), Failure> {
    let words = fields.words()?.map(u32::from_be_bytes);
    let block = fields.array()?;
    fields.end()?;
    let encrypted = aes::encrypt_block(&words, &block);
    println!(rt; "{}", Told(encrypted.as_slice()))?;
    Ok(())
}
