// The S-boxes S7 and S9 of TS 35.202. S7 is a table; S9 is computed.
ghost use Rattle.std.specs.Prelude.{◌≡◌, ◌<◌};
ghost use Rattle.sboxes.specs.Tables.{s9 as Tables·s9};

pub(crate) static S7: [u16; 128] = [
    54, 50, 62, 56, 22, 34, 94, 96, 38, 6, 63, 93, 2, 18, 123, 33, 55, 113, 39, 114, 21, 67, 65,
    12, 47, 73, 46, 27, 25, 111, 124, 81, 53, 9, 121, 79, 52, 60, 58, 48, 101, 127, 40, 120, 104,
    70, 71, 43, 20, 122, 72, 61, 23, 109, 13, 100, 77, 1, 16, 7, 82, 10, 105, 98, 117, 116, 76, 11,
    89, 106, 0, 125, 118, 99, 86, 69, 30, 57, 126, 87, 112, 51, 17, 5, 95, 14, 90, 84, 91, 8, 35,
    103, 32, 97, 28, 66, 102, 31, 26, 45, 75, 4, 85, 92, 37, 74, 80, 49, 68, 29, 115, 44, 64, 107,
    108, 24, 110, 83, 36, 78, 42, 19, 15, 41, 88, 119, 59, 3,
];

// An entry of S9 from its gate equations, all nine output bits at once. Each number stands at a product of input bits, 0x0A7 at the constant 1,
// and bit i of it says whether the equation of yi has that product. x0 to x8 are the input bits, each at all places of a word.
pub(crate) fn s9(x: u16) -> u16
    requires { x < 512 }
    ensures { result ≡ Tables·s9 x }
{
    let x0 = x % 2 * 0xFFFF;
    let x1 = x / 2 % 2 * 0xFFFF;
    let x2 = x / 4 % 2 * 0xFFFF;
    let x3 = x / 8 % 2 * 0xFFFF;
    let x4 = x / 16 % 2 * 0xFFFF;
    let x5 = x / 32 % 2 * 0xFFFF;
    let x6 = x / 64 % 2 * 0xFFFF;
    let x7 = x / 128 % 2 * 0xFFFF;
    let x8 = x / 256 % 2 * 0xFFFF;
    let mut entry = x0 & 0x048;
    entry ^= x1 & (x0 & 0x192 ^ 0x006);
    entry ^= x2 & (x0 & 0x081 ^ x1 & 0x188 ^ 0x120);
    entry ^= x3 & (x0 & 0x08C ^ x1 & 0x010 ^ x2 & 0x0C2 ^ 0x081);
    entry ^= x4 & (x0 & 0x002 ^ x1 & 0x022 ^ x2 & 0x008 ^ x3 & 0x104 ^ 0x010);
    entry ^= x5 & (x0 & 0x016 ^ x1 & 0x140 ^ x2 & 0x141 ^ x3 & 0x002 ^ x4 & 0x0E0 ^ 0x008);
    entry ^= x6
        & (x0 & 0x028 ^ x1 & 0x128 ^ x2 & 0x084 ^ x3 & 0x0D4 ^ x4 & 0x140 ^ x5 & 0x045 ^ 0x002);
    entry ^= x7
        & (x0 & 0x011
            ^ x1 & 0x003
            ^ x2 & 0x083
            ^ x3 & 0x020
            ^ x4 & 0x02C
            ^ x5 & 0x084
            ^ x6 & 0x034
            ^ 0x140);
    entry ^= x8
        & (x0 & 0x00C
            ^ x1 & 0x058
            ^ x2 & 0x110
            ^ x3 & 0x150
            ^ x4 & 0x001
            ^ x5 & 0x063
            ^ x6 & 0x020
            ^ x7 & 0x069
            ^ 0x084);
    entry ^ 0x0A7
}
