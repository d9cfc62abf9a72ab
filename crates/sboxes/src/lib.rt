// The S-boxes of KASUMI, and the table for its function FI that is made of them.
#![tactic(auto)]

mod boxes;

ghost use Rattle.std.specs.Prelude.{◌≡◌, ◌++◌, ◌+◌, ◌^◌, ◌<◌, length, take};
ghost use Rattle.octets.specs.Bits.{listed};
ghost use Rattle.sboxes.specs.FiTable.{entry_of_nine, entry_of_seven, fi_table, Filled};

// The entry of nine bits: their S9, and its lowest seven bits.
fn entry_of_nine(a: u16) -> u16
    requires { a < 512 }
    ensures { result ≡ entry_of_nine a }
{
    let nine = boxes::s9(a);
    nine * 128 + nine % 128
}

// The entry of seven bits: these bits themselves, and their S7 xor them.
fn entry_of_seven(b: u16) -> u16
    requires { b < 128 }
    ensures { result ≡ entry_of_seven b }
{
    b * 128 + (boxes::S7[b as usize] ^ b)
}

// Puts the entries from 2^k + 2^j on, as many again as 2^j. No equation of S9 has a product of three bits, so the bits k and j together add one and the
// same number to an entry, whichever lower bits are set beside them (docs/S9.md). How many entries stand already is held by no value, so each contract
// says it, and no type.
fn put_pair(k: usize, j: usize, table: &mut [u16; 640])
    requires { (j < k) × ((k < 9) × Filled (2 ^ k + 2 ^ j) table.old) }
    ensures { Filled (2 ^ k + (2 ^ j + 2 ^ j)) table.new }
{
    let high = 1 << k;
    let low = 1 << j;
    let at = high + low;
    let number = entry_of_nine(at as u16) ^ table[high] ^ table[low] ^ table[0];
    for i in 0..low {
        table[at + i] = table[high + i] ^ table[low + i] ^ table[i] ^ number;
    }
}

// Puts the entries of which k is the highest bit: as many as there are already.
fn put_row(k: usize, table: &mut [u16; 640])
    requires { (k < 9) × Filled (2 ^ k) table.old }
    ensures { Filled (2 ^ k + 2 ^ k) table.new }
{
    let high = 1 << k;
    table[high] = entry_of_nine(high as u16);
    for j in 0..k {
        put_pair(k, j, table);
    }
}

// Puts the entries of nine bits to the front of the table, row by row of the triangle.
fn put_nines(table: &mut [u16; 640])
    ensures { Filled 512 table.new }
{
    table[0] = entry_of_nine(0);
    for k in 0..9 {
        put_row(k, table);
    }
}

// Puts the entries of seven bits after those of nine.
fn put_sevens(table: &mut [u16; 640])
    ensures { table.new ≡ take 512 table.old ++ listed entry_of_seven 128 }
{
    for b in 0..128 {
        table[512 + b] = entry_of_seven(b as u16);
    }
}

// The table for FI, to be lent to `kasumi::cipher_block`. It is the same for every key.
pub fn fi_table() -> [u16; 640]
    ensures { result ≡ fi_table }
{
    let mut table = [0u16; 640];
    put_nines(&mut table);
    put_sevens(&mut table);
    table
}
