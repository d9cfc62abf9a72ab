// The calls by their names.
use crate::fields::{Failure, Fields};
use crate::{
    bits, blocks, challenges, ciphers, ends, forms, headers, lending, links, messages, numbers,
    rounds, states, tell,
};
use std::io;

// The answer to a line.
pub(crate) fn answer(rt: HostRuntime, line: &[u8]) -> io::Result<()> {
    let mut room = [0; 4096];
    let mut fields = Fields::of(line, &mut room);
    match told(rt, &mut fields) {
        Ok(()) => Ok(()),
        Err(Failure::NoCall) => tell::bad(rt),
        Err(Failure::Host(error)) => Err(error),
    }
}

// Makes the call that a line names, and tells all that it hands out. The names are spread over four functions: the check does not cover one function with
// all of them. Each call takes the host beside the fields, which are of the line alone: what writes takes the host.
fn told(rt: HostRuntime, fields: &mut Fields<'_>) -> Result<(), Failure> {
    match fields.text()? {
        b"kasumi" => ciphers::kasumi(rt, fields),
        b"prepare_key" => ciphers::prepare_key(rt, fields),
        b"gsm" => ciphers::two_blocks(rt, fields, keystreams::gsm),
        b"ecsd" => ciphers::two_blocks(rt, fields, keystreams::ecsd),
        b"kgcore" => ciphers::kgcore(rt, fields),
        b"gea4" => ciphers::gea4(rt, fields),
        b"fi_table" => rounds::fi_table(rt, fields),
        b"round_keys" => rounds::round_keys(rt, fields),
        b"cipher_block" => rounds::cipher_block(rt, fields),
        b"f8" => messages::f8(rt, fields),
        b"f9" => messages::f9(rt, fields),
        b"check_code" => messages::check_code(rt, fields),
        name => told_of_blocks(rt, name, fields),
    }
}

// The calls of AES and MILENAGE, and those of octets.
fn told_of_blocks(rt: HostRuntime, name: &[u8], fields: &mut Fields<'_>) -> Result<(), Failure> {
    match name {
        b"aes" => lending::two_strings(rt, fields, aes::aes),
        b"expand_key" => blocks::expand_key(rt, fields),
        b"encrypt_block" => blocks::encrypt_block(rt, fields),
        b"opc" => lending::two_strings(rt, fields, milenage::opc),
        b"f1" => challenges::code(rt, fields, milenage::f1),
        b"f1_star" => challenges::code(rt, fields, milenage::f1_star),
        b"f2" => challenges::result(rt, fields, milenage::f2),
        b"f3" => challenges::result(rt, fields, milenage::f3),
        b"f4" => challenges::result(rt, fields, milenage::f4),
        b"f5" => challenges::result(rt, fields, milenage::f5),
        b"f5_star" => challenges::result(rt, fields, milenage::f5_star),
        b"size" => bits::size(rt, fields),
        b"first_bits" => bits::first_bits(rt, fields),
        b"octet_or_zero" => bits::octet_or_zero(rt, fields),
        b"cut" => bits::cut(rt, fields),
        b"xor" => lending::two_strings(rt, fields, octets::xor),
        _ => told_of_link(rt, name, fields),
    }
}

// The calls of the link, from its frames on.
fn told_of_link(rt: HostRuntime, name: &[u8], fields: &mut Fields<'_>) -> Result<(), Failure> {
    match name {
        b"start" => numbers::start(rt, fields),
        b"numbering_can_arise" => states::can_arise(rt, fields, numbering::can_arise),
        b"number" => numbers::number(rt, fields),
        b"look" => headers::look(rt, fields),
        b"header" => headers::header(rt, fields),
        b"put_header" => headers::put_header(rt, fields),
        b"open_link" => states::open(rt, fields, link::open_link),
        b"link_can_arise" => states::can_arise(rt, fields, link::can_arise),
        b"cipher" => links::cipher(rt, fields),
        _ => told_of_ends(rt, name, fields),
    }
}

// The calls of the link's ends and of their stored forms.
fn told_of_ends(rt: HostRuntime, name: &[u8], fields: &mut Fields<'_>) -> Result<(), Failure> {
    match name {
        b"open_sender" => states::open(rt, fields, sender::open_sender),
        b"open_receiver" => states::open(rt, fields, receiver::open_receiver),
        b"sender_can_arise" => states::can_arise(rt, fields, sender::can_arise),
        b"receiver_can_arise" => states::can_arise(rt, fields, receiver::can_arise),
        b"reserve" => ends::reserve(rt, fields),
        b"seal" => ends::seal(rt, fields),
        b"open" => ends::open(rt, fields),
        b"store_sender" => forms::store_sender(rt, fields),
        b"store_receiver" => forms::store_receiver(rt, fields),
        b"restore_sender" => states::restore(rt, fields, stored::restore_sender),
        b"restore_receiver" => states::restore(rt, fields, stored::restore_receiver),
        _ => Err(Failure::NoCall),
    }
}
