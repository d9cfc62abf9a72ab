// The calls of what the rounds of KASUMI are lent: the table for FI and the round keys. Their words are octets here, two a word, the higher first.
use crate::fields::{Failure, Fields};
use crate::handed::{handed_out, number_of};
use crate::tell::Told;

// fi_table
pub(crate) fn fi_table(rt: HostRuntime, fields: &mut Fields<'_>) -> Result<(), Failure> {
    fields.end()?;
    let words = sboxes::fi_table().map(u16::to_be_bytes);
    println!(rt; "{}", Told(words.as_flattened()))?;
    Ok(())
}

// round_keys KEY
pub(crate) fn round_keys(rt: HostRuntime, fields: &mut Fields<'_>) -> Result<(), Failure> {
    let key = fields.octets()?;
    fields.end()?;
    let keys = kasumi::round_keys(key);
    let words = handed_out(keys).map(u16::to_be_bytes);
    println!(rt; "{} {}", number_of(&keys), Told(words.as_flattened()))?;
    Ok(())
}

// cipher_block TABLE KEYS BLOCK
pub(crate) fn cipher_block(rt: HostRuntime, fields: &mut Fields<'_>) -> Result<(), Failure> {
    let table = fields.words()?.map(u16::from_be_bytes);
    let keys = fields.words()?.map(u16::from_be_bytes);
    let block = fields.number()?;
    fields.end()?;
    let ciphered = kasumi::cipher_block(&table, &keys, block);
    println!(rt; "{ciphered:016X}")?;
    Ok(())
}
